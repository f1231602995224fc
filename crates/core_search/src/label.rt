// What is spread.
ghost use Rattle.std.specs.Prelude.{◌≡◌, ◌+◌, ◌<◌, ◌^◌};
ghost use Rattle.core_search.specs.Label.{after};

/// What a label carries besides its seconds. Entries are compared in the order of the fields.
#[derive(Clone, Copy, Debug, PartialEq, Eq, PartialOrd, Ord)]
pub struct Rest {
    pub a: u32,
    pub b: u32,
    pub trip: u32,
    pub ready: u64,
    pub y: u32,
    pub a1: u32,
    pub c: u32,
}

/// The seconds of a label and its rest. The seconds are compared first.
#[derive(Clone, Copy, Debug, PartialEq, Eq, PartialOrd, Ord)]
pub struct Label {
    pub seconds: u64,
    pub rest: Rest,
}

// The label some seconds on.
#[inline]
pub(crate) fn later(label: Label, seconds: u64) -> Label
    requires { label.seconds + seconds < 2 ^ 64 }
    ensures { result ≡ after label seconds }
{
    Label {
        seconds: label.seconds + seconds,
        rest: label.rest,
    }
}
