//! Plans journeys over a GTFS timetable and a street graph, with unrestricted walking: the top call over the files and
//! streams of the system.
#![tactic(auto)]

ghost use Rattle.std.specs.Prelude.{◌≡◌, ◌<◌};

use move_files::{DiskFiles, StdSink};
use std::marker::Brand;
use std::process::ExitCode;
use std::sync::ledger::{Blank, Ledger};
use steps::Steps;
use top_call::{Status, exit_number, run_program};

// Runs over the files and streams of the system, with counters of its own.
fn run_counted<L: Ledger, M: Ledger>(rt: &HostRuntime, searches: Blank, opens: Blank) -> Status
    requires searches_name { searches.name ≡ L.name }
    requires searches_parts { searches.parts ≡ L.parts }
    requires searches_some { 0 < searches.parts }
    requires opens_name { opens.name ≡ M.name }
    requires opens_parts { opens.parts ≡ M.parts }
    requires opens_some { 0 < opens.parts }
{
    let mut searches = Steps::<L>::new(searches);
    let mut opens = Steps::<M>::new(opens);
    let mut files = DiskFiles::new(rt);
    let mut out = StdSink::new(rt.stdout());
    let mut err = StdSink::new(rt.stderr());
    run_program(
        rt,
        &mut files,
        &mut out,
        &mut err,
        &mut searches,
        &mut opens,
    )
}

fn main(rt: HostRuntime) -> ExitCode {
    let status = run_counted::<Brand, Brand>(&rt, Blank::new(1), Blank::new(1));
    ExitCode::from(exit_number(status))
}
