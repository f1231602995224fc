// Which best arrivals are best pairs.
ghost use Rattle.std.specs.Prelude.{◌≡◌, ◌<◌, ◌≤◌, ◌+◌, ◌-◌, ◌^◌, ℕ, length, take, MatchOption, None, Some, slice_get, slice_index_or};
ghost use Rattle.raptor_rounds.specs.Answers.{HasSeconds};
ghost use Rattle.range_lanes.specs.declared.level.Level.{Level};
ghost use Rattle.range_search.specs.Leads.{IsLeadOf};

use range_lanes::Level;

/// When who walks all the way arrives, or the greatest number where there is no such walk.
pub fn foot_bound(foot: Option<u64>, depart: u32) -> u64
    requires { HasSeconds foot }
    ensures { MatchOption foot (result ≡ 2 ^ 64 - 1) (λ seconds. result ≡ depart + seconds) }
{
    match foot {
        Some(seconds) => u64::from(depart) + seconds,
        None => u64::MAX,
    }
}

/// The arrival, where it is before the least so far.
fn lead_of(best: u64, least: u64) -> Option<u64>
    ensures led { best < least → result ≡ Some best }
    ensures none { least ≤ best → result ≡ None }
{
    if best < least { Some(best) } else { None }
}

/// The lesser of two seconds.
fn lesser(best: u64, least: u64) -> u64
    ensures low { best < least → result ≡ best }
    ensures same { least ≤ best → result ≡ least }
{
    if best < least { best } else { least }
}

/// The best arrival for each number of rides, where it is before the bound and before those with fewer rides.
pub fn find_leads(levels: &[Level], bound: u64, leads: &mut [Option<u64>])
    requires many { length leads.old ≡ length levels.now }
    ensures many { length leads.new ≡ length levels.now }
    ensures exact { (k : ℕ) (level : Level) → slice_get levels.now k ≡ Some level
        → IsLeadOf (take k levels.now) bound level (slice_index_or leads.new k None) }
{
    let mut least = bound;
    for k in 0..levels.len() {
        let best = levels[k].best;
        leads[k] = lead_of(best, least);
        least = lesser(best, least);
    }
}
