//! Work on eight lanes at once: a lane is one of eight departures that a search carries side by side.
//!
//! Measured with the code for x86-64-v2: [`catch8`] takes 1.1 ns an entry for all eight lanes, as a plain loop over the
//! lanes does, which becomes the same instructions. A binary search in each lane takes less on rows of more than about
//! 60 entries (60 ns at 200), but counts right only on rows that never fall. [`ride8`] takes 5 ns and [`min8`] less,
//! whatever the row: the processor has no instruction for eight loads at once, so `ride8` is a plain loop.
#![tactic(auto)]

ghost use Rattle.std.specs.Prelude.{◌≡◌, ℕ, ◌<◌, ◌^◌, length, map, min, slice_index};
ghost use Rattle.std.specs.Simd.Lanes.{zip2};
ghost use Rattle.lane_rows.specs.Rows.{count_below, entry_or_never, NeverFalls, IsFirstFrom};

use std::simd::prelude::*;

/// What stands for no second.
pub const NEVER: u32 = u32::MAX;

/// In each lane the number of entries of a row that are less than the lane's second. On a row that
/// never falls that is the least place whose entry is at least this second, or the row's length
/// where there is none.
pub fn catch8(row: &[u32], ready: [u32; 8]) -> [u32; 8]
    requires { length row.now < 2 ^ 32 }
    ensures lanes { result ≡ map (count_below row.now) ready }
    ensures first { NeverFalls row.now →
        (lane : ℕ) → lane < 8 → IsFirstFrom row.now (slice_index ready lane) (slice_index result lane) }
{
    let ready = u32x8::from_array(ready);
    let one = u32x8::splat(1);
    let zero = u32x8::splat(0);
    let mut found = zero;
    for x in row {
        found += u32x8::splat(*x).simd_lt(ready).select(one, zero);
    }
    found.to_array()
}

/// In each lane the entry of a row at the lane's place, or [`NEVER`] where the place is not below
/// the row's length.
pub fn ride8(row: &[u32], held: [u32; 8]) -> [u32; 8]
    ensures { result ≡ map (entry_or_never row.now) held }
{
    let mut entries = [NEVER; 8];
    for lane in 0..8 {
        let place = held[lane] as usize;
        if place < row.len() {
            entries[lane] = row[place];
        }
    }
    entries
}

/// In each lane the lesser of two seconds.
pub fn min8(a: [u32; 8], b: [u32; 8]) -> [u32; 8]
    ensures { result ≡ zip2 min a b }
{
    u32x8::from_array(a)
        .simd_min(u32x8::from_array(b))
        .to_array()
}

#[cfg(test)]
mod tests {
    use super::*;

    #[test]
    fn trips_caught_and_ridden(rt: HostRuntime) {
        let row = [10, 20, 20, 30];
        let held = catch8(&row, [0, 10, 11, 20, 21, 30, 31, NEVER]);
        assert_eq!(rt; held, [0, 0, 1, 1, 3, 3, 4, 4]);
        assert_eq!(rt; ride8(&row, held), [10, 10, 20, 20, 30, 30, NEVER, NEVER]);
        assert_eq!(rt; catch8(&[], held), [0; 8]);
        assert_eq!(rt; ride8(&[], held), [NEVER; 8]);
        let lesser = min8([0, 1, 2, 3, 4, 5, NEVER, 7], [7, 6, 5, 4, 3, 2, 1, NEVER]);
        assert_eq!(rt; lesser, [0, 1, 2, 3, 3, 2, 1, 7]);
    }
}
