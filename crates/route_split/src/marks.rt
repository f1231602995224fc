// Which routes were opened.
ghost use Rattle.std.specs.Prelude.{◌≡◌, ◌<◌, ◌+◌, Bool, true, false, length, slice_get, slice_set, replicate, IfOk};

use crate::Timetable;
use move_model::NoMemory;
use std::alloc::Global;
use std::marker::Model;

/// Which routes of a table were opened since the last `clear`.
///
/// A route is marked where its stamp is that of the round, so that a clear only begins a new round.
#[derive(Drop)]
pub struct RoundMarks {
    stamps: Vec<u32>,
    round: u32,
}

impl Model for RoundMarks {
    ghost use Rattle.std.specs.Prelude.{List, Bool, map, ◌==◌, ◌<◌, ◌≤◌, All};

    ghost Value = { List Bool };

    ghost view = { λ marks. map (λ stamp. stamp == marks.round) marks.stamps.items };

    ghost invariant = { λ marks. (0 < marks.round) × All (λ stamp. stamp ≤ marks.round) marks.stamps.items };
}

// Sets all stamps to 0.
fn clear_all(stamps: &mut Vec<u32>)
    ensures { stamps.new.items ≡ replicate (length stamps.old.items) 0 }
{
    stamps.as_mut_slice().fill(0);
}

impl RoundMarks {
    /// No route of the table is marked.
    pub fn new(alloc: Global, table: &Timetable) -> Result<RoundMarks, NoMemory>
        ensures { IfOk result (λ marks. marks ≡ replicate (length table.now.routes) false) }
    {
        let count = table.routes() as usize;
        let stamps: Vec<u32> = vec![in alloc; 0; count]?;
        Ok(RoundMarks { stamps, round: 1 })
    }

    /// Unmarks all routes. It takes no time, but at every 4,294,967,295th call a pass over all routes.
    pub fn clear(&mut self)
        ensures { self.new ≡ replicate (length self.old) false }
    {
        if self.round < u32::MAX {
            self.round += 1;
        } else {
            clear_all(&mut self.stamps);
            self.round = 1;
        }
    }

    /// Whether the route is marked.
    pub fn marked(&self, route: u32) -> bool
        requires { route < length self.now }
        ensures { slice_get self.now route ≡ Some result }
    {
        self.stamps[route as usize] == self.round
    }

    /// Marks the route.
    pub(crate) fn mark(&mut self, route: u32)
        requires { route < length self.old }
        ensures { self.new ≡ slice_set self.old route true }
    {
        let round = self.round;
        self.stamps[route as usize] = round;
    }
}
