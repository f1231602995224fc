// Optional seconds, one for each stop.
ghost use Rattle.std.specs.Prelude.{◌≡◌, ◌<◌, ◌≤◌, ◌^◌, length, slice_get, slice_set, replicate, None, IfOk, IfSome, Option};
ghost use Rattle.move_model.specs.Optional.{optional_of};

use crate::StopNo;
use std::alloc::{AllocError, Global};
use std::marker::Model;

// What stands for no seconds.
const ABSENT: u64 = u64::MAX;

// How optional seconds are stored.
fn stored(seconds: Option<u64>) -> u64
    requires { IfSome seconds (λ m. m ≤ 9000000000000000000) }
    ensures { optional_of result ≡ seconds }
{
    match seconds {
        Some(some) => some,
        None => ABSENT,
    }
}

/// A row of optional seconds, one for each stop from stop 0.
#[derive(Debug, Drop)]
pub struct WalkRow {
    seconds: Vec<u64>,
}

impl Model for WalkRow {
    ghost use Rattle.std.specs.Prelude.{List, ℕ, Option, map};
    ghost use Rattle.move_model.specs.Optional.{optional_of};

    ghost Value = { List (Option ℕ) };

    ghost view = { λ row. map optional_of row.seconds.items };
}

impl WalkRow {
    /// A row of that many absent seconds.
    pub fn new(alloc: Global, stops: u32) -> Result<WalkRow, AllocError>
        ensures { IfOk result (λ row. row ≡ replicate stops None) }
    {
        let seconds = vec![in alloc; ABSENT; stops as usize]?;
        Ok(WalkRow { seconds })
    }

    /// Writes the seconds of a stop.
    pub fn set(&mut self, stop: StopNo, seconds: Option<u64>)
        requires exists { stop.0 < length self.old }
        requires limited { IfSome seconds (λ m. m ≤ 9000000000000000000) }
        ensures { self.new ≡ slice_set self.old stop.0 seconds }
    {
        self.seconds[stop.0 as usize] = stored(seconds);
    }

    /// The seconds of a stop, or None where they are absent.
    pub fn get(&self, stop: StopNo) -> Option<u64>
        requires { stop.0 < length self.now }
        ensures { slice_get self.now stop.0 ≡ Some result }
    {
        let seconds = self.seconds[stop.0 as usize];
        if seconds < ABSENT {
            Some(seconds)
        } else {
            None
        }
    }
}
