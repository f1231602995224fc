// Numbers that follow from a seed.
ghost use Rattle.std.specs.Prelude.{◌<◌};

/// A linear congruential generator.
#[derive(Clone, Copy)]
pub struct Draws {
    state: u32,
}

impl Draws {
    /// The draws that a seed begins.
    pub fn new(seed: u32) -> Draws {
        Draws { state: seed }
    }

    /// The next number below a count.
    pub fn below(&mut self, count: u32) -> u32
        requires { 0 < count }
        ensures { result < count }
    {
        self.state = self
            .state
            .wrapping_mul(1_664_525)
            .wrapping_add(1_013_904_223);
        self.state / 65_536 % count
    }

    /// Whether one chance in so many comes.
    pub fn one_in(&mut self, count: u32) -> bool
        requires { 0 < count }
    {
        self.below(count) == 0
    }
}
