// Two rides with a walk between them, by hand.
ghost use Rattle.std.specs.Prelude.{◌≡◌, ◌<◌, ◌≤◌, length, All, IfOk, OnOk};
ghost use Rattle.raptor_rounds.specs.Answers.{IsEntryWithin, HasSeconds};

use crate::samples::{T1, T2, network_of, table_of, trips_of};
use move_model::{Network, NoMemory, Ride, Shortcut, Shortcuts, StopNo, TripNo, WalkRow};
use raptor_rounds::*;
use route_split::Timetable;
use std::alloc::Global;
use std::marker::Brand;
use std::sync::ledger::{Blank, Ledger};
use std::test::Fail;
use steps::Steps;

const A: StopNo = StopNo(0);

const B: StopNo = StopNo(1);

const C: StopNo = StopNo(2);

const D: StopNo = StopNo(3);

const FIRST: Ride = Ride {
    trip: TripNo(0),
    board: 0,
    alight: 1,
};

const SECOND: Ride = Ride {
    trip: TripNo(1),
    board: 0,
    alight: 1,
};

// Lists the walks between two stops.
fn list_both(list: &mut Shortcuts, one: StopNo, other: StopNo, seconds: u64) -> Result<(), NoMemory>
    requires one { one.0 < 4 }
    requires other { other.0 < 4 }
    requires bound { seconds ≤ 7200 }
    requires list { All (IsEntryWithin 4) list.old }
    ensures { OnOk result (All (IsEntryWithin 4) list.new) }
{
    list.push(Shortcut {
        from: one,
        to: other,
        seconds,
    })?;
    list.push(Shortcut {
        from: other,
        to: one,
        seconds,
    })
}

// The walks between all stops that those streets join.
fn four_walks(alloc: Global) -> Result<Shortcuts, NoMemory>
    ensures { IfOk result (λ list. All (IsEntryWithin 4) list) }
{
    let mut list = Shortcuts::new(alloc);
    list_both(&mut list, B, C, 240)?;
    list_both(&mut list, A, D, 7200)?;
    Ok(list)
}

// Seconds of a walk to or from two stops, none to the others.
fn row_of(alloc: Global, one: StopNo, other: StopNo, seconds: u64) -> Result<WalkRow, NoMemory>
    requires one { one.0 < 4 }
    requires other { other.0 < 4 }
    requires bound { seconds ≤ 7200 }
    ensures length { IfOk result (λ row. length row ≡ 4) }
    ensures bounded { IfOk result (λ row. All HasSeconds row) }
{
    let mut row = WalkRow::new(alloc, 4)?;
    row.set(one, Some(0));
    row.set(other, Some(seconds));
    Ok(row)
}

// Asks for two rides at most from A at 7:55 to D.
fn ask<L: Ledger>(
    alloc: Global,
    table: &Timetable,
    rounds: &mut Rounds,
    opens: &mut Steps<L>,
) -> Result<(), NoMemory>
    requires table { table.now.stops ≡ 4 }
    requires stops { rounds.old.stops ≡ 4 }
    requires routes { rounds.old.routes ≡ length table.now.routes }
    requires limit { rounds.old.limit ≡ 2 }
    ensures { OnOk result (length rounds.new.answers ≡ 3) }
{
    let walks = four_walks(alloc)?;
    let first = row_of(alloc, A, D, 7200)?;
    let last = row_of(alloc, D, A, 7200)?;
    rounds.run(table, &walks, &first, &last, 28500, 2, opens);
    Ok(())
}

// Whether these are the rides of a journey with so many of them; no rides stand for no journey.
fn are_legs(alloc: Global, rounds: &Rounds, trips: u8, rides: &[Ride]) -> Result<bool, NoMemory>
    requires { trips < length rounds.now.answers }
{
    let legs = rounds.legs(alloc, trips)?;
    Ok(match legs {
        Some(legs) => legs.as_slice() == rides,
        None => rides.is_empty(),
    })
}

fn are_answers(alloc: Global, rounds: &Rounds) -> Result<bool, NoMemory>
    requires { length rounds.now.answers ≡ 3 }
{
    let one = are_legs(alloc, rounds, 1, &[])?;
    let two = are_legs(alloc, rounds, 2, &[FIRST, SECOND])?;
    Ok(one && two && rounds.best(1).is_none() && rounds.best(2) == Some(30600))
}

// Nothing is found before a search, and then the two rides.
fn asked<L: Ledger>(
    alloc: Global,
    table: &Timetable,
    rounds: &mut Rounds,
    blank: Blank,
) -> Result<bool, NoMemory>
    requires table { table.now.stops ≡ 4 }
    requires stops { rounds.old.stops ≡ 4 }
    requires routes { rounds.old.routes ≡ length table.now.routes }
    requires limit { rounds.old.limit ≡ 2 }
    requires some_answers { 0 < length rounds.old.answers }
    requires name { blank.name ≡ L.name }
    requires parts { blank.parts ≡ L.parts }
    requires some { 0 < blank.parts }
{
    let mut opens = Steps::<L>::new(blank);
    let empty = rounds.best(0).is_none();
    ask(alloc, table, rounds, &mut opens)?;
    Ok(are_answers(alloc, rounds)? && empty)
}

fn finds(alloc: Global, table: &Timetable) -> Result<bool, NoMemory>
    requires { table.now.stops ≡ 4 }
{
    let mut rounds = Rounds::new(alloc, table, 4, 2)?;
    asked::<Brand>(alloc, table, &mut rounds, Blank::new(1))
}

// The number of routes of a network, and whether the two rides are found, or None where it breaks a rule.
fn found_on(alloc: Global, network: &Network) -> Result<Option<(u32, bool)>, NoMemory> {
    let Some(table) = table_of(alloc, network, 0)? else {
        return Ok(None);
    };
    Ok(Some((table.routes(), finds(alloc, &table)?)))
}

// From A at 8:00 to B at 8:10, and from C at 8:15 to D at 8:30.
fn found_in_sample(alloc: Global) -> Result<Option<(u32, bool)>, NoMemory> {
    let trips = trips_of(alloc, &[T1, T2])?;
    let network = network_of(alloc, 240, &[1, 2, 3, 4], trips)?;
    found_on(alloc, &network)
}

#[test]
fn rides_twice(rt: HostRuntime) -> Result<(), Fail> {
    assert_eq!(rt; found_in_sample(rt.alloc())?, Some((2, true)));
    Ok(())
}
