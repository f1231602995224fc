// Journeys for the pairs that gain.
ghost use Rattle.std.specs.Prelude.{◌≡◌, ◌+◌, ◌<◌, ◌≤◌, [], ℕ, IfOk, OnOk, IfSome, IfNone, length};
ghost use Rattle.move_model.specs.Streets.{IsVertex};
ghost use Rattle.move_model.specs.Network.{streets};
ghost use Rattle.raptor_rounds.specs.Answers.{HasSeconds};
ghost use Rattle.journey_build.specs.Built.{IsBroken};
ghost use Rattle.network_file.specs.Compiled.{FitTogether};
ghost use Rattle.network_file.specs.Answers.{AreLeastSums};
ghost use Rattle.network_answers.specs.Gains.{sums_of, AreAnswers};
ghost use Rattle.network_answers.specs.Found.{IsFinding, Adds, IsFoundFor, IsTicked};

use crate::asked::Asked;
use crate::gains::on_foot;
use journey_build::build;
use move_model::{Finding, Findings, NoMemory, NodeNo, Pair, RideList};
use network_file::Compiled;
use std::alloc::Global;
use std::sync::ledger::Ledger;
use steps::Steps;
use walk_hierarchy::Work;

// The pair with a journey of these rides, where there is one.
fn find<L: Ledger>(
    alloc: Global,
    compiled: &Compiled,
    from: NodeNo,
    to: NodeNo,
    depart: u32,
    pair: Pair,
    rides: &RideList,
    work: &mut Work,
    searches: &mut Steps<L>,
) -> Result<Option<Finding>, NoMemory>
    requires fits { FitTogether compiled.now }
    requires from { IsVertex (streets compiled.now.network) from }
    requires to { IsVertex (streets compiled.now.network) to }
    requires work { work.old.nodes ≡ length compiled.now.hierarchy.ranks }
    ensures made { IfOk result (λ made. IfSome made (IsFinding compiled.now from depart rides.now to pair)) }
    ensures none { IfOk result (λ made. IfNone made (IsBroken compiled.now.network compiled.now.hierarchy from depart rides.now to)) }
    ensures nodes { work.new.nodes ≡ work.old.nodes }
    ensures ticks { searches.new ≤ searches.old + length rides.now + 1 }
{
    let made = build(
        alloc,
        &compiled.network,
        &compiled.hierarchy,
        from,
        to,
        depart,
        rides,
        work,
        searches,
    )?;
    match made {
        Some(journey) => Ok(Some(Finding { pair, journey })),
        None => Ok(None),
    }
}

// Puts the pair last, where a journey with these rides is found.
fn add<L: Ledger>(
    alloc: Global,
    compiled: &Compiled,
    from: NodeNo,
    to: NodeNo,
    depart: u32,
    pair: Pair,
    rides: &RideList,
    found: &mut Findings,
    work: &mut Work,
    searches: &mut Steps<L>,
) -> Result<(), NoMemory>
    requires fits { FitTogether compiled.now }
    requires from { IsVertex (streets compiled.now.network) from }
    requires to { IsVertex (streets compiled.now.network) to }
    requires work { work.old.nodes ≡ length compiled.now.hierarchy.ranks }
    ensures adds { OnOk result (Adds compiled.now from depart rides.now to pair found.old found.new) }
    ensures nodes { work.new.nodes ≡ work.old.nodes }
    ensures ticks { searches.new ≤ searches.old + length rides.now + 1 }
{
    let made = find(
        alloc, compiled, from, to, depart, pair, rides, work, searches,
    )?;
    if let Some(finding) = made {
        found.push(finding)?;
    }
    Ok(())
}

// Begins with the pair on foot, where there is a walk.
fn add_walk<L: Ledger>(
    alloc: Global,
    compiled: &Compiled,
    asked: &Asked,
    from: NodeNo,
    to: NodeNo,
    depart: u32,
    found: &mut Findings,
    work: &mut Work,
    searches: &mut Steps<L>,
) -> Result<(), NoMemory>
    requires fits { FitTogether compiled.now }
    requires from { IsVertex (streets compiled.now.network) from }
    requires to { IsVertex (streets compiled.now.network) to }
    requires work { work.old.nodes ≡ length compiled.now.hierarchy.ranks }
    requires sums { AreLeastSums compiled.now from to (sums_of asked.now) }
    requires foot { HasSeconds asked.now.foot }
    requires none { found.old ≡ [] }
    ensures found { OnOk result (IsFoundFor compiled.now (sums_of asked.now) from depart to 0 found.new) }
    ensures nodes { work.new.nodes ≡ work.old.nodes }
    ensures ticks { IsTicked compiled.now (sums_of asked.now) depart 0 searches.old searches.new }
{
    let Some(arrive) = on_foot(depart, asked.foot) else {
        return Ok(());
    };
    let rides = RideList::new(alloc);
    add(
        alloc,
        compiled,
        from,
        to,
        depart,
        Pair { arrive, trips: 0 },
        &rides,
        found,
        work,
        searches,
    )
}

// Goes on with the pair of one ride more, where it gains.
fn add_rides<L: Ledger>(
    alloc: Global,
    compiled: &Compiled,
    asked: &Asked,
    from: NodeNo,
    to: NodeNo,
    depart: u32,
    before: u8,
    found: &mut Findings,
    work: &mut Work,
    searches: &mut Steps<L>,
) -> Result<(), NoMemory>
    requires fits { FitTogether compiled.now }
    requires from { IsVertex (streets compiled.now.network) from }
    requires to { IsVertex (streets compiled.now.network) to }
    requires work { work.old.nodes ≡ length compiled.now.hierarchy.ranks }
    requires foot { HasSeconds asked.now.foot }
    requires answers { AreAnswers compiled.now (sums_of asked.now) depart asked.now.rounds }
    requires within { before + 1 < length asked.now.rounds.answers }
    requires few { before < 255 }
    requires found { IsFoundFor compiled.now (sums_of asked.now) from depart to before found.old }
    ensures found { OnOk result (IsFoundFor compiled.now (sums_of asked.now) from depart to (before + 1) found.new) }
    ensures nodes { work.new.nodes ≡ work.old.nodes }
    ensures ticks { (start : ℕ) → IsTicked compiled.now (sums_of asked.now) depart before start searches.old
        → IsTicked compiled.now (sums_of asked.now) depart (before + 1) start searches.new }
{
    let Some(arrive) = asked.gain(depart, before) else {
        return Ok(());
    };
    let trips = before + 1;
    let Some(rides) = asked.rounds.legs(alloc, trips)? else {
        return Ok(());
    };
    add(
        alloc,
        compiled,
        from,
        to,
        depart,
        Pair { arrive, trips },
        &rides,
        found,
        work,
        searches,
    )
}

// The listed pairs with their journeys, by rising number of rides. A pair without such a journey is left out.
pub(crate) fn find_all<L: Ledger>(
    alloc: Global,
    compiled: &Compiled,
    asked: &Asked,
    from: NodeNo,
    to: NodeNo,
    depart: u32,
    limit: u8,
    work: &mut Work,
    searches: &mut Steps<L>,
) -> Result<Findings, NoMemory>
    requires fits { FitTogether compiled.now }
    requires from { IsVertex (streets compiled.now.network) from }
    requires to { IsVertex (streets compiled.now.network) to }
    requires work { work.old.nodes ≡ length compiled.now.hierarchy.ranks }
    requires sums { AreLeastSums compiled.now from to (sums_of asked.now) }
    requires foot { HasSeconds asked.now.foot }
    requires answers { AreAnswers compiled.now (sums_of asked.now) depart asked.now.rounds }
    requires one_each { length asked.now.rounds.answers ≡ limit + 1 }
    ensures found { IfOk result (IsFoundFor compiled.now (sums_of asked.now) from depart to limit) }
    ensures nodes { work.new.nodes ≡ work.old.nodes }
    ensures ticks { IsTicked compiled.now (sums_of asked.now) depart limit searches.old searches.new }
{
    let mut found = Findings::new(alloc);
    add_walk(
        alloc, compiled, asked, from, to, depart, &mut found, work, searches,
    )?;
    for before in 0..limit {
        add_rides(
            alloc, compiled, asked, from, to, depart, before, &mut found, work, searches,
        )?;
    }
    Ok(found)
}
