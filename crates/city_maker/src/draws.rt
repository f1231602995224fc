// The stream of draws.
ghost use Rattle.std.specs.Prelude.{◌≡◌, ◌+◌, ◌%◌, ◌<◌, ◌^◌};
ghost use Rattle.city_maker.specs.Draws as spec;
ghost use Rattle.city_maker.specs.Draws.{state_after};

const FACTOR: u64 = 6_364_136_223_846_793_005;

const STEP: u64 = 1_442_695_040_888_963_407;

// The state after a state.
#[tactic(auto, unfolding(crate::specs::Draws::next))]
fn next(state: u64) -> u64
    ensures { result ≡ spec.next state }
{
    state.wrapping_mul(FACTOR).wrapping_add(STEP)
}

/// The stream that a number begins, with how many draws were made.
#[derive(Drop)]
pub(crate) struct Draws {
    number: u64,
    made: u64,
    state: u64,
    ghost stands: { state ≡ state_after number made },
}

impl Draws {
    pub(crate) fn new(number: u64) -> Draws
        ensures number { result.number ≡ number }
        ensures made { result.made ≡ 0 }
    {
        Draws {
            number,
            made: 0,
            state: number,
        }
    }

    // The next draw.
    fn draw(&mut self) -> u64
        requires { self.old.made < 2 ^ 32 }
        ensures value { result ≡ spec.draw self.old.number self.old.made }
        ensures number { self.new.number ≡ self.old.number }
        ensures made { self.new.made ≡ self.old.made + 1 }
    {
        let state = next(self.state);
        self.made += 1;
        self.state = state;
        state >> 33
    }

    /// The next draw, modulo a number.
    pub(crate) fn below(&mut self, end: u32) -> u32
        requires some { 0 < end }
        requires few { self.old.made < 2 ^ 32 }
        ensures value { result ≡ spec.draw self.old.number self.old.made % end }
        ensures below { result < end }
        ensures number { self.new.number ≡ self.old.number }
        ensures made { self.new.made ≡ self.old.made + 1 }
    {
        (self.draw() % u64::from(end)) as u32
    }
}
