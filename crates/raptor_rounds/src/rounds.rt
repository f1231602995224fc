// The rounds of a query, as their users see them.
ghost use Rattle.std.specs.Prelude.{◌≡◌, ◌<◌, ◌≤◌, ◌+◌, ◌*◌, ◌^◌, ◌∷◌, [], ℕ, length, IfOk, All, None, vec_len};
ghost use Rattle.std.specs.Option.{option_map};
ghost use Rattle.move_model.specs.declared.network.Network.{Network};
ghost use Rattle.route_split.specs.Calls.{IsTableOf};
ghost use Rattle.raptor_rounds.specs.Answers.{answer_at, IsAnswer, IsEntryWithin, HasSeconds};

use crate::entries::{Spans, new_spans, span_list};
use crate::labels::{Best, Found, Ready, Step};
use crate::legs::rides_of;
use crate::sparse_row::SparseRow;
use crate::sparse_set::SparseSet;
use crate::turns::run_rounds;
use move_model::{NoMemory, Ride, RideList, Shortcuts, TripNo, WalkRow};
use route_split::{RoundMarks, Timetable};
use std::alloc::Global;
use std::marker::Model;
use std::sync::ledger::Ledger;
use steps::Steps;

/// What runs of rounds need, and what the last run found.
#[derive(Drop)]
pub struct Rounds {
    ready: Ready,
    found: Found,
    starts: SparseRow,
    spans: Spans,
    slots: Vec<Step>,
    bests: Vec<Best>,
    marks: RoundMarks,
    stops: u32,
    limit: u8,
    ran: u8,
}

impl Model for Rounds {
    ghost use Rattle.std.specs.Prelude.{◌≡◌, ◌<◌, ◌≤◌, ◌+◌, ◌*◌, ◌^◌, map, take, length, vec_len};
    ghost use Rattle.raptor_rounds.specs.Answers.{Kept, answer_of};
    ghost use Rattle.raptor_rounds.specs.Least.{Sizes};

    ghost Value = { Kept };

    ghost view = { λ r. record { stops = r.stops; routes = length r.starts; limit = r.limit; answers = map (answer_of r.slots.items) (take (r.ran + 1) r.bests.items) } };

    ghost invariant = { λ r. Sizes r.stops r.ready r.found
        × (length r.marks ≡ length r.starts)
        × (length r.spans.firsts ≡ r.stops)
        × (vec_len r.spans.ends ≡ r.stops)
        × (r.limit * r.stops ≤ length r.slots.items)
        × (length r.slots.items < 2 ^ 32)
        × (r.limit < length r.bests.items)
        × (r.ran ≤ r.limit) };
}

// A step that stands for nothing.
const NO_STEP: Step = Step {
    ride: Ride {
        trip: TripNo(0),
        board: 0,
        alight: 0,
    },
    by: 0,
};

// When the passenger is ready at so many stops.
fn new_ready(alloc: Global, stops: u32) -> Result<Ready, NoMemory>
    ensures seconds { IfOk result (λ ready. length ready.seconds ≡ stops) }
    ensures by { IfOk result (λ ready. vec_len ready.by ≡ stops) }
    ensures better { IfOk result (λ ready. length ready.better ≡ stops) }
{
    let seconds = SparseRow::new(alloc, stops)?;
    let by: Vec<u32> = vec![in alloc; 0; stops as usize]?;
    let better = SparseSet::new(alloc, stops)?;
    Ok(Ready {
        seconds,
        by,
        better,
    })
}

// Where rides are left at so many stops.
fn new_found(alloc: Global, stops: u32) -> Result<Found, NoMemory>
    ensures left { IfOk result (λ found. length found.left ≡ stops) }
    ensures steps { IfOk result (λ found. vec_len found.steps ≡ stops) }
    ensures fresh { IfOk result (λ found. length found.fresh ≡ stops) }
{
    let left = SparseRow::new(alloc, stops)?;
    let steps: Vec<Step> = vec![in alloc; NO_STEP; stops as usize]?;
    let fresh = SparseSet::new(alloc, stops)?;
    Ok(Found {
        left,
        steps,
        fresh,
        best: u64::MAX,
        best_step: NO_STEP,
    })
}

// Slots for the steps of all rounds. They are numbered by 32 bits.
fn new_slots(alloc: Global, stops: u32, limit: u8) -> Result<Vec<Step>, NoMemory>
    ensures room { IfOk result (λ slots. limit * stops ≤ length slots.items) }
    ensures few { IfOk result (λ slots. length slots.items < 2 ^ 32) }
{
    let count = u64::from(limit) * u64::from(stops);
    if count > u64::from(u32::MAX) {
        return Err(NoMemory);
    }
    vec![in alloc; NO_STEP; count as usize]
}

impl Rounds {
    /// Takes the memory for runs over a table with so many stops, with at most `limit` rides. Before the first run the
    /// last run counts as one with limit 0.
    pub fn new(alloc: Global, table: &Timetable, stops: u32, limit: u8) -> Result<Rounds, NoMemory>
        ensures { IfOk result (λ rounds. rounds ≡ record { stops = stops; routes = length table.now.routes; limit = limit; answers = None ∷ [] }) }
    {
        let ready = new_ready(alloc, stops)?;
        let found = new_found(alloc, stops)?;
        let starts = SparseRow::new(alloc, table.routes())?;
        let spans = new_spans(alloc, stops)?;
        let slots = new_slots(alloc, stops, limit)?;
        let none = Best {
            second: u64::MAX,
            step: NO_STEP,
        };
        let bests: Vec<Best> = vec![in alloc; none; limit as usize + 1]?;
        let marks = RoundMarks::new(alloc, table)?;
        Ok(Rounds {
            ready,
            found,
            starts,
            spans,
            slots,
            bests,
            marks,
            stops,
            limit,
            ran: 0,
        })
    }

    /// Finds the best arrivals with 1 to `limit` rides of a passenger who leaves at `depart`, in seconds of the service
    /// day. Each round opens each route at most once, and ticks at each. It takes no memory.
    pub fn run<L: Ledger>(
        &mut self,
        table: &Timetable,
        shortcuts: &Shortcuts,
        first: &WalkRow,
        last: &WalkRow,
        depart: u32,
        limit: u8,
        opens: &mut Steps<L>,
    )
        requires stops { self.old.stops ≡ table.now.stops }
        requires routes { self.old.routes ≡ length table.now.routes }
        requires limit { limit ≤ self.old.limit }
        requires first { length first.now ≡ table.now.stops }
        requires first_bound { All HasSeconds first.now }
        requires last { length last.now ≡ table.now.stops }
        requires bound { All HasSeconds last.now }
        requires list { All (IsEntryWithin table.now.stops) shortcuts.now }
        ensures answers { (n : Network) → IsTableOf n table.now → (k : ℕ) → k ≤ limit
            → IsAnswer n first.now last.now shortcuts.now depart k (answer_at self.new k) }
        ensures one_each { length self.new.answers ≡ limit + 1 }
        ensures keeps { self.new ≡ record self.old { answers = self.new.answers } }
        ensures counted { opens.new ≤ opens.old + limit * length table.now.routes }
    {
        let _routes = table.routes();
        let list = shortcuts.as_slice();
        span_list(list, &mut self.spans);
        self.ran = limit;
        run_rounds(
            table,
            list,
            &self.spans,
            first,
            last,
            depart,
            limit,
            &mut self.ready,
            &mut self.found,
            &mut self.starts,
            self.slots.as_mut_slice(),
            self.bests.as_mut_slice(),
            &mut self.marks,
            opens,
        );
    }

    /// The least arrival of the last run with 1 to k rides, in seconds of the service day, or None where there is none.
    pub fn best(&self, k: u8) -> Option<u64>
        requires { k < length self.now.answers }
        ensures { result ≡ option_map (λ a. a.second) (answer_at self.now k) }
    {
        let second = self.bests[k as usize].second;
        if second < u64::MAX {
            Some(second)
        } else {
            None
        }
    }

    /// The rides of a journey that attains `best(k)`, or None where there is none.
    pub fn legs(&self, alloc: Global, k: u8) -> Result<Option<RideList>, NoMemory>
        requires { k < length self.now.answers }
        ensures { IfOk result (λ legs. legs ≡ option_map (λ a. a.rides) (answer_at self.now k)) }
    {
        let best = self.bests[k as usize];
        if best.second < u64::MAX {
            let rides = rides_of(alloc, self.slots.as_slice(), best.step)?;
            Ok(Some(rides))
        } else {
            Ok(None)
        }
    }
}
