// Walks on from all stops.
ghost use Rattle.std.specs.Prelude.{◌≡◌, ◌≢◌, ◌<◌, ◌≤◌, ◌^◌, ◌-◌, ◌⊎◌, ◌↔◌, ℕ, IsTrue, length, slice_index};
ghost use Rattle.move_model.specs.declared.network.StopNo.{StopNo};
ghost use Rattle.two_trip_rides.specs.Second.{ready_at};
ghost use Rattle.two_trip_labels.specs.Walks.{ReadyFall, AreCuts};
ghost use Rattle.two_trip_passes.specs.Walks.{last_walked, IsWalkOf, IsWalkedFrom, WalkGoes};

use move_model::StopNo;
use piece_laws::Ready;
use stop_rows::StopRows;
use two_trip_labels::{put_cuts, walk_from};

// Walks on from a stop by the row of its place.
fn walk_place(
    rows: &StopRows,
    stop: u32,
    foot: &[u32],
    second: u32,
    first: &[u32],
    cuts: &[u32],
    ready: &mut [Ready],
)
    requires stop { stop < length first.now }
    requires few { stop < 2 ^ 32 - 1 }
    requires places { length rows.now.places ≡ length first.now }
    requires foot { length foot.now ≡ length rows.now.nodes }
    requires ready { length ready.old ≡ length rows.now.nodes }
    requires cuts { AreCuts foot.now second ready.old cuts.now }
    ensures known { (p : ℕ) → p < length rows.now.nodes → IsWalkedFrom rows.now foot.now second (slice_index first.now stop) (record { 0 = stop }) ready.new p }
    ensures falls { ReadyFall ready.old ready.new }
    ensures changed { (p : ℕ) → (ready_at ready.new p ≡ ready_at ready.old p) ⊎ IsWalkOf rows.now first.now p (ready_at ready.new p) }
{
    let row = rows.row(rows.place(StopNo(stop)));
    walk_from(
        row,
        foot,
        second,
        first[stop as usize],
        1 + stop,
        cuts,
        ready,
    );
}

// Puts down from when walks were made.
fn lower_walked(stop: u32, arrive: u32, walked: &mut [u32])
    requires { stop < length walked.old }
    ensures as_many { length walked.new ≡ length walked.old }
    ensures here { last_walked walked.new stop ≡ arrive }
    ensures others { (x : ℕ) → x ≢ stop → last_walked walked.new x ≡ last_walked walked.old x }
{
    walked[stop as usize] = arrive;
}

// Whether a ride is left at a stop earlier than walks were made from it.
fn is_earlier(stop: u32, first: &[u32], walked: &[u32]) -> bool
    requires stop { stop < length first.now }
    requires walked { length walked.now ≡ length first.now }
    ensures { IsTrue result ↔ (slice_index first.now stop < last_walked walked.now stop) }
{
    first[stop as usize] < walked[stop as usize]
}

// Walks on from a stop, if a ride is left there earlier than walks were made from it.
fn walk_stop(
    rows: &StopRows,
    stop: u32,
    foot: &[u32],
    second: u32,
    first: &[u32],
    cuts: &[u32],
    walked: &mut [u32],
    ready: &mut [Ready],
)
    requires stop { stop < length first.now }
    requires few { stop < 2 ^ 32 - 1 }
    requires places { length rows.now.places ≡ length first.now }
    requires walked { length walked.old ≡ length first.now }
    requires foot { length foot.now ≡ length rows.now.nodes }
    requires ready { length ready.old ≡ length rows.now.nodes }
    requires cuts { AreCuts foot.now second ready.old cuts.now }
    ensures goes { WalkGoes rows.now foot.now second first.now walked.old walked.new ready.old ready.new }
    ensures low { last_walked walked.new stop ≤ slice_index first.now stop }
{
    if is_earlier(stop, first, walked) {
        lower_walked(stop, first[stop as usize], walked);
        walk_place(rows, stop, foot, second, first, cuts, ready);
    }
}

/// Walks on from all stops where a ride is left earlier than walks were made from there. The cuts are scratch memory.
pub fn walk_all(
    rows: &StopRows,
    foot: &[u32],
    second: u32,
    first: &[u32],
    cuts: &mut [u32],
    walked: &mut [u32],
    ready: &mut [Ready],
)
    requires places { length rows.now.places ≡ length first.now }
    requires walked { length walked.old ≡ length first.now }
    requires foot { length foot.now ≡ length rows.now.nodes }
    requires ready { length ready.old ≡ length rows.now.nodes }
    requires cuts { length cuts.old ≡ length rows.now.nodes }
    ensures goes { WalkGoes rows.now foot.now second first.now walked.old walked.new ready.old ready.new }
    ensures low { (x : ℕ) → x < length first.now → last_walked walked.new x ≤ slice_index first.now x }
    ensures cuts { length cuts.new ≡ length cuts.old }
{
    put_cuts(foot, second, ready, cuts);
    for stop in 0..rows.stops() {
        walk_stop(rows, stop, foot, second, first, cuts, walked, ready);
    }
}
