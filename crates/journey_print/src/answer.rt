// What is printed.
use move_model::{Findings, NoMemory, Place};

/// The answer to a point query: its pairs by rising number of trips, each with a journey.
#[derive(Debug, Drop)]
pub struct PointAnswer {
    pub from: Place,
    pub to: Place,
    pub depart: u32,
    pub found: Findings,
}

/// Why rows were not sent.
#[derive(Clone, Copy, Debug, PartialEq, Eq)]
pub enum PrintStop {
    WriteFault,
    NoMemory,
}

impl From<NoMemory> for PrintStop {
    ghost use Rattle.std.specs.Prelude.{◌≡◌};
    ghost use Rattle.journey_print.specs.declared.answer.PrintStop.TheVariants as print_stop;

    ghost from_gives = { λ _ stop. stop ≡ print_stop.NoMemory };

    fn from(_: NoMemory) -> PrintStop {
        PrintStop::NoMemory
    }
}
