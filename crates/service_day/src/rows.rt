// The rows of frequencies.txt, by trip and by second.
ghost use Rattle.std.specs.Prelude.{◌≡◌, ◌≤◌, ◌<◌, ◌+◌, ◌-◌, ◌*◌, ◌^◌, ℕ, All, IfOk, length};
ghost use Rattle.std.specs.List.Sorted.{IsNonDecreasingBy};
ghost use Rattle.std.specs.Int.{div_ceil};
ghost use Rattle.service_day.specs.DayTrips.{rows_of, starts_from};

use gtfs_feed::CopyRow;
use move_model::NoMemory;
use std::alloc::Global;

/// The rows by rising trip. Rows of one trip keep their order.
pub(crate) fn sorted_rows(alloc: Global, rows: &[CopyRow]) -> Result<Vec<CopyRow>, NoMemory>
    ensures sorted { IfOk result (λ sorted. IsNonDecreasingBy (λ row. row.trip) sorted.items) }
    ensures same { IfOk result (λ sorted. (place : ℕ) → rows_of place sorted.items ≡ rows_of place rows.now) }
{
    let mut sorted = Vec::from_slice(alloc, rows)?;
    sorted.sort_by_key(|row| row.trip)?;
    Ok(sorted)
}

/// The rows that name a trip.
pub(crate) fn named_rows(rows: &[CopyRow], place: u32) -> &[CopyRow]
    requires { IsNonDecreasingBy (λ row. row.trip) rows.now }
    ensures { result.now ≡ rows_of place rows.now }
{
    let first = rows.partition_point(|row| row.trip < place);
    let rest = &rows[first..];
    let count = rest.partition_point(|row| row.trip <= place);
    &rest[..count]
}

/// The first start of a row that is not before a second, whether or not it is before the row's end.
pub(crate) fn first_start(row: &CopyRow, earliest: u32) -> u64
    requires { 1 ≤ row.now.headway }
    ensures { result ≡ row.now.start + div_ceil (earliest - row.now.start) row.now.headway * row.now.headway }
{
    let headway = u64::from(row.headway);
    let early = u64::from(earliest.saturating_sub(row.start));
    u64::from(row.start) + early.div_ceil(headway) * headway
}

#[tactic(auto, using(crate::proofs::StartLemmas::starts_count))]
/// How many starts of a row there are from one of them on.
pub(crate) fn starts_left(row: &CopyRow, start: u64) -> u64
    requires { 1 ≤ row.now.headway }
    ensures { result ≡ length (starts_from row.now.headway start row.now.end) }
{
    u64::from(row.end)
        .saturating_sub(start)
        .div_ceil(u64::from(row.headway))
}
