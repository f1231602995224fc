// How the seconds of a trip are moved.
ghost use Rattle.std.specs.Prelude.{◌≡◌};
ghost use Rattle.service_day.specs.DayTrips.{IsTimed};

use move_model::Call;

/// The second `first` is moved to `start`, and the seconds before `cut` are left out.
#[derive(Clone, Copy)]
pub(crate) struct Shift {
    pub first: u32,
    pub start: u32,
    pub cut: u32,
}

impl Shift {
    ghost use Rattle.service_day.specs.Shift.{shifted, shifted_call, first_arrival};

    pub(crate) fn second(self, second: u32) -> u64
        ensures { result ≡ shifted self second }
    {
        let moved = u64::from(self.start) + u64::from(second.saturating_sub(self.first));
        moved.saturating_sub(u64::from(self.cut))
    }

    pub(crate) fn call(self, call: Call) -> Call
        requires { IsTimed (shifted_call self call) }
        ensures { result ≡ shifted_call self call }
    {
        let arr = self.second(call.arr) as u32;
        let dep = self.second(call.dep) as u32;
        Call { arr, dep, ..call }
    }

    pub(crate) fn first_arrival(self, calls: &[Call]) -> u64
        ensures { result ≡ first_arrival self calls.now }
    {
        match calls.first() {
            Some(call) => self.second(call.arr),
            None => 0,
        }
    }
}
