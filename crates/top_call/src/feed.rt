// The feed's folder, and its trips of the day.
ghost use Rattle.std.specs.Prelude.{◌≡◌, ◌≤◌, length, All, IfOk, OnOk, IfErr};
ghost use Rattle.gtfs_feed.specs.Feed.{IsFeed};
ghost use Rattle.feed_values.specs.Date.{IsDay};
ghost use Rattle.top_call.specs.Words.{told};
ghost use Rattle.top_call.specs.Reading.{OnlyReads};
ghost use Rattle.service_day.specs.DayTrips.{IsDayTrip, call_count, most_trips, most_calls};
ghost use Rattle.top_call.specs.Status.{HasCause, ComesOfInput};
ghost use Rattle.top_call.specs.Input.{Held, held, AllReadable, day_order, trip_order, feed_order, HoldsDays, HoldsTrips, IsFeedIn, AreDayTrips};
ghost use Rattle.top_call.specs.Turns.{IsNoTurn, IsTurnAmong};
ghost use Rattle.top_call.specs.Rejected.{StopsBy, RejectsFiles, RejectsFeed, RejectsDay};

use crate::inputs::{read_file, read_optional, status_of};
use crate::status::Status;
use crate::words::PlanWords;
use gtfs_feed::{Feed, FeedBytes, read_feed};
use move_files::Files;
use move_model::{FileKind, Trips};
use service_day::{active, active_before, expand};
use std::alloc::Global;

// The files of a feed that name its stops and days.
#[derive(Drop)]
struct DayFiles {
    stops: Vec<u8>,
    calendar: Option<Vec<u8>>,
    dates: Option<Vec<u8>>,
}

// The files of a feed that tell its trips.
#[derive(Drop)]
struct TripFiles {
    trips: Vec<u8>,
    stop_times: Vec<u8>,
    frequencies: Option<Vec<u8>>,
}

fn read_day_files<F: Files>(
    alloc: Global,
    plan: &PlanWords,
    files: &mut F,
) -> Result<DayFiles, Status>
    ensures told { F.tells → IfOk result (HoldsDays (held (told plan.now) (F.holds files.old))) }
    ensures readable { F.tells → OnOk result (AllReadable (held (told plan.now) (F.holds files.old)) day_order) }
    ensures rejected { F.tells → IfErr result (StopsBy (RejectsFiles (held (told plan.now) (F.holds files.old)) day_order) (IsTurnAmong (held (told plan.now) (F.holds files.old)) day_order)) }
    ensures cause { IfErr result (HasCause (told plan.now) F.Files files.old files.new) }
    ensures reads { OnlyReads F.Files files.old files.new }
{
    let stops = read_file(alloc, plan, files, FileKind::Stops)?;
    let calendar = read_optional(alloc, plan, files, FileKind::Calendar)?;
    let dates = read_optional(alloc, plan, files, FileKind::CalendarDates)?;
    Ok(DayFiles {
        stops,
        calendar,
        dates,
    })
}

fn read_trip_files<F: Files>(
    alloc: Global,
    plan: &PlanWords,
    files: &mut F,
) -> Result<TripFiles, Status>
    ensures told { F.tells → IfOk result (HoldsTrips (held (told plan.now) (F.holds files.old))) }
    ensures readable { F.tells → OnOk result (AllReadable (held (told plan.now) (F.holds files.old)) trip_order) }
    ensures rejected { F.tells → IfErr result (StopsBy (RejectsFiles (held (told plan.now) (F.holds files.old)) trip_order) (IsTurnAmong (held (told plan.now) (F.holds files.old)) trip_order)) }
    ensures cause { IfErr result (HasCause (told plan.now) F.Files files.old files.new) }
    ensures reads { OnlyReads F.Files files.old files.new }
{
    let trips = read_file(alloc, plan, files, FileKind::Trips)?;
    let stop_times = read_file(alloc, plan, files, FileKind::StopTimes)?;
    let frequencies = read_optional(alloc, plan, files, FileKind::Frequencies)?;
    Ok(TripFiles {
        trips,
        stop_times,
        frequencies,
    })
}

// The feed of its files.
#[tactic(auto, unfolding(crate::specs::Status::ComesOfInput, crate::specs::Rejected::StopsBy))]
fn feed_of(alloc: Global, days: &DayFiles, trips: &TripFiles) -> Result<Feed, Status>
    ensures told { (held : Held) → AllReadable held day_order → AllReadable held trip_order → HoldsDays held days.now → HoldsTrips held trips.now
        → IfOk result (IsFeedIn held) }
    ensures rejected { (held : Held) → AllReadable held day_order → AllReadable held trip_order → HoldsDays held days.now → HoldsTrips held trips.now
        → IfErr result (StopsBy (RejectsFeed held) (IsTurnAmong held feed_order)) }
    ensures feed { IfOk result IsFeed }
    ensures cause { IfErr result ComesOfInput }
{
    let bytes = FeedBytes {
        stops: &days.stops,
        calendar: days.calendar.as_deref(),
        dates: days.dates.as_deref(),
        trips: &trips.trips,
        stop_times: &trips.stop_times,
        frequencies: trips.frequencies.as_deref(),
    };
    match read_feed(alloc, &bytes) {
        Ok(feed) => Ok(feed),
        Err(stopped) => Err(status_of(stopped)),
    }
}

/// Reads the feed's folder.
pub fn read_folder<F: Files>(alloc: Global, plan: &PlanWords, files: &mut F) -> Result<Feed, Status>
    ensures told { F.tells → IfOk result (IsFeedIn (held (told plan.now) (F.holds files.old))) }
    ensures rejected { F.tells → IfErr result (StopsBy (RejectsFeed (held (told plan.now) (F.holds files.old))) (IsTurnAmong (held (told plan.now) (F.holds files.old)) feed_order)) }
    ensures feed { IfOk result IsFeed }
    ensures cause { IfErr result (HasCause (told plan.now) F.Files files.old files.new) }
    ensures reads { OnlyReads F.Files files.old files.new }
{
    let days = read_day_files(alloc, plan, files)?;
    let trips = read_trip_files(alloc, plan, files)?;
    feed_of(alloc, &days, &trips)
}

/// The trips of a date and the night trips of the day before.
#[tactic(auto, using(crate::proofs::RejectLemmas::day_rule), unfolding(crate::specs::Status::ComesOfInput, crate::specs::Rejected::StopsBy))]
pub fn day_trips(alloc: Global, feed: &Feed, date: u32) -> Result<Trips, Status>
    requires feed { IsFeed feed.now }
    requires date { IsDay date }
    ensures trips { IfOk result (AreDayTrips date feed.now) }
    ensures rejected { IfErr result (StopsBy (RejectsDay date feed.now) IsNoTurn) }
    ensures valid { IfOk result (All (IsDayTrip (length feed.now.stops))) }
    ensures few_trips { IfOk result (λ trips. length trips ≤ most_trips) }
    ensures few_calls { IfOk result (λ trips. call_count trips ≤ most_calls) }
    ensures cause { IfErr result ComesOfInput }
{
    let Ok(today) = active(alloc, feed, date) else {
        return Err(Status::NoMemory);
    };
    let Ok(before) = active_before(alloc, feed, date) else {
        return Err(Status::NoMemory);
    };
    match expand(alloc, feed, &today, &before) {
        Ok(trips) => Ok(trips),
        Err(stopped) => Err(status_of(stopped)),
    }
}
