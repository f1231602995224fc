// Reading needed walks off the labels.
ghost use Rattle.std.specs.Prelude.{◌≡◌, ◌<◌, ◌≤◌, ◌+◌, ◌-◌, ◌⊎◌, ◌↔◌, ℕ, IsTrue, Contains, length, vec_len, vec_capacity};
ghost use Rattle.move_model.specs.declared.network.StopNo.{StopNo};
ghost use Rattle.two_trip_rides.specs.Second.{second_at};
ghost use Rattle.two_trip_passes.specs.Own.{own_at};
ghost use Rattle.two_trip_passes.specs.Read.{Pair, key_pair, arrival, IsFound, IsNear, HasNear, IsReadAt, IsReadBefore, IsReadUntil, IsReadLast, IsOwnKey, HasRead};

use move_model::StopNo;
use piece_laws::{Ready, Second};
use stop_rows::StopRows;
use two_trip_rides::NEVER;

// The last second at which a ride may be left.
const LAST_SECOND: u32 = 3_599_999;

// Whether two rides to a stop, and the walk from there, are earlier than a second ride that is left at a place.
fn is_near(rows: &StopRows, stop: u32, place: u32, arrive: u32, best: &[Second]) -> bool
    requires stop { stop < length rows.now.places }
    requires place { place < length rows.now.nodes }
    requires best { length best.now ≡ length rows.now.places }
    ensures { IsTrue result ↔ IsNear rows.now best.now (record { 0 = stop }) place arrive }
{
    let left = best[stop as usize].a2;
    let row = rows.row(rows.place(StopNo(stop)));
    let reached = left as u64 + row[place as usize] as u64;
    if reached != arrive as u64 {
        return reached < arrive as u64;
    }
    left < arrive
}

// Whether two rides to some stop, and the walk from there, are so.
fn has_near(rows: &StopRows, place: u32, arrive: u32, best: &[Second]) -> bool
    requires place { place < length rows.now.nodes }
    requires best { length best.now ≡ length rows.now.places }
    ensures { IsTrue result ↔ HasNear rows.now best.now place arrive }
{
    for stop in 0..rows.stops() {
        if is_near(rows, stop, place, arrive, best) {
            return true;
        }
    }
    false
}

// What is known of a stop, or none past the end.
fn own_of(own: &[u32], stop: u32) -> u32
    ensures { result ≡ own_at own.now (record { 0 = stop }) }
{
    if (stop as usize) < own.len() {
        own[stop as usize]
    } else {
        NEVER
    }
}

// Whether a label at a stop is that of a first ride of the start itself, and neither a walk nor one ride is as early.
fn is_own(key: Second, stop: u32, second: u32, foot: &[u32], own: &[u32], boarded: &[Ready]) -> bool
    requires foot { stop < length foot.now }
    requires boarded { stop < length boarded.now }
    ensures { IsTrue result ↔ IsOwnKey foot.now second own.now boarded.now (record { 0 = stop }) key }
{
    if key.a2 > LAST_SECOND || key.label.c == 0 {
        return false;
    }
    if own_of(own, key.label.c - 1) != key.label.a1 {
        return false;
    }
    let at = stop as usize;
    key.a2 < boarded[at].ready && (key.a2 as u64) < second as u64 + foot[at] as u64
}

// The pair of stops that a key walks between.
fn pair_of(key: Second) -> (StopNo, StopNo)
    requires { 0 < key.label.c }
    ensures { result ≡ key_pair key }
{
    (StopNo(key.label.c - 1), StopNo(key.y))
}

// Whether one pair stands before another, by its first stop, then by its second.
fn is_before(a: (StopNo, StopNo), b: (StopNo, StopNo)) -> bool {
    if a.0.0 != b.0.0 {
        return a.0.0 < b.0.0;
    }
    a.1.0 < b.1.0
}

// Where a pair stands in a rising list, if it is there.
fn place_in(known: &[(StopNo, StopNo)], pair: (StopNo, StopNo)) -> usize
    ensures { result ≤ length known.now }
{
    let mut low = 0;
    let mut high = known.len();
    while low < high {
        let middle = low + (high - low) / 2;
        if is_before(known[middle], pair) {
            low = middle + 1;
        } else {
            high = middle;
        }
    }
    low
}

// Whether a pair was found in a rising list.
fn is_known(known: &[(StopNo, StopNo)], pair: (StopNo, StopNo)) -> bool
    ensures { IsTrue result → Contains known.now pair }
{
    let place = place_in(known, pair);
    place < known.len() && known[place].0.0 == pair.0.0 && known[place].1.0 == pair.1.0
}

// Whether the labels say at a stop that a walk is needed, and one that isn't known.
fn is_read(
    rows: &StopRows,
    stop: u32,
    second: u32,
    foot: &[u32],
    own: &[u32],
    boarded: &[Ready],
    best: &[Second],
    known: &[(StopNo, StopNo)],
) -> bool
    requires stop { stop < length rows.now.places }
    requires foot { length foot.now ≡ length rows.now.places }
    requires boarded { length boarded.now ≡ length rows.now.places }
    requires best { length best.now ≡ length rows.now.places }
    ensures sound { IsTrue result → IsReadAt rows.now foot.now second own.now boarded.now best.now (record { 0 = stop }) (key_pair (second_at best.now stop)).0 (key_pair (second_at best.now stop)).1 }
    ensures whole { (q : Pair) → IsReadAt rows.now foot.now second own.now boarded.now best.now (record { 0 = stop }) q.0 q.1 → Contains known.now q ⊎ IsTrue result }
{
    let key = best[stop as usize];
    if !is_own(key, stop, second, foot, own, boarded) {
        return false;
    }
    if is_known(known, pair_of(key)) {
        return false;
    }
    !has_near(rows, rows.place(StopNo(stop)), key.a2, best)
}

// A second, or a later one before which the second ride is left of which the labels say at a stop that a walk is needed, if that
// isn't known.
fn until_stop(
    rows: &StopRows,
    stop: u32,
    second: u32,
    foot: &[u32],
    own: &[u32],
    boarded: &[Ready],
    best: &[Second],
    known: &[(StopNo, StopNo)],
    until: u64,
) -> u64
    requires stop { stop < length rows.now.places }
    requires foot { length foot.now ≡ length rows.now.places }
    requires boarded { length boarded.now ≡ length rows.now.places }
    requires best { length best.now ≡ length rows.now.places }
    ensures later { until ≤ result }
    ensures until { IsReadUntil rows.now foot.now second own.now boarded.now best.now known.now (record { 0 = stop }) result }
    ensures last { (result ≡ until) ⊎ IsReadLast rows.now foot.now second own.now boarded.now best.now (stop + 1) result }
{
    let after = best[stop as usize].a2 as u64 + 1;
    if after <= until {
        return until;
    }
    if is_read(rows, stop, second, foot, own, boarded, best, known) {
        return after;
    }
    until
}

/// The second after the last one at which a second ride is left of which the labels say that a walk is needed, and one that
/// isn't known; or 0, where there is none.
pub fn read_until(
    rows: &StopRows,
    second: u32,
    foot: &[u32],
    own: &[u32],
    boarded: &[Ready],
    best: &[Second],
    known: &[(StopNo, StopNo)],
) -> u64
    requires foot { length foot.now ≡ length rows.now.places }
    requires boarded { length boarded.now ≡ length rows.now.places }
    requires best { length best.now ≡ length rows.now.places }
    ensures until { (v : StopNo) → v.0 < length rows.now.places → IsReadUntil rows.now foot.now second own.now boarded.now best.now known.now v result }
    ensures last { (result ≡ 0) ⊎ IsReadLast rows.now foot.now second own.now boarded.now best.now (length rows.now.places) result }
{
    let mut until = 0;
    for stop in 0..rows.stops() {
        until = until_stop(rows, stop, second, foot, own, boarded, best, known, until);
    }
    until
}

// Adds the pair that the labels say at a stop of a second ride that is left before a second, if it isn't known; there is room
// for it.
fn read_stop(
    rows: &StopRows,
    stop: u32,
    second: u32,
    before: u64,
    foot: &[u32],
    own: &[u32],
    boarded: &[Ready],
    best: &[Second],
    known: &[(StopNo, StopNo)],
    pairs: &mut Vec<(StopNo, StopNo)>,
)
    requires stop { stop < length rows.now.places }
    requires foot { length foot.now ≡ length rows.now.places }
    requires boarded { length boarded.now ≡ length rows.now.places }
    requires best { length best.now ≡ length rows.now.places }
    requires room { vec_len pairs.old < vec_capacity pairs.old }
    ensures pairs { (q : Pair) → IsFound known.now pairs.new.items q ↔ (IsFound known.now pairs.old.items q ⊎ IsReadBefore rows.now foot.now second before own.now boarded.now best.now (record { 0 = stop }) q.0 q.1) }
    ensures capacity { vec_capacity pairs.old ≤ vec_capacity pairs.new }
    ensures len { vec_len pairs.new ≤ vec_len pairs.old + 1 }
{
    let key = best[stop as usize];
    if key.a2 as u64 >= before {
        return;
    }
    if is_read(rows, stop, second, foot, own, boarded, best, known) {
        pairs.push_reserved(pair_of(key));
    }
}

/// Adds the pairs that the labels say at all stops of second rides that are left before a second, but for some that are known,
/// in rising order; there is room for one of each.
pub fn read_all(
    rows: &StopRows,
    second: u32,
    before: u64,
    foot: &[u32],
    own: &[u32],
    boarded: &[Ready],
    best: &[Second],
    known: &[(StopNo, StopNo)],
    pairs: &mut Vec<(StopNo, StopNo)>,
)
    requires foot { length foot.now ≡ length rows.now.places }
    requires boarded { length boarded.now ≡ length rows.now.places }
    requires best { length best.now ≡ length rows.now.places }
    requires room { vec_len pairs.old + length rows.now.places ≤ vec_capacity pairs.old }
    ensures pairs { (q : Pair) → IsFound known.now pairs.new.items q ↔ (IsFound known.now pairs.old.items q ⊎ HasRead rows.now foot.now second before own.now boarded.now best.now (length rows.now.places) q.0 q.1) }
    ensures capacity { vec_capacity pairs.old ≤ vec_capacity pairs.new }
{
    for stop in 0..rows.stops() {
        read_stop(
            rows, stop, second, before, foot, own, boarded, best, known, pairs,
        );
    }
}
