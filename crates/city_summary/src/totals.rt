// The numbers of a summary.
ghost use Rattle.std.specs.Prelude.{◌≡◌, ◌+◌, ◌<◌, ◌^◌};

/// How many pairs and spans an answer has, and the sum of their arrivals in seconds.
#[derive(Clone, Copy, Debug, PartialEq, Eq)]
pub struct Counts {
    pub pairs: u64,
    pub spans: u64,
    pub arrivals: u64,
}

/// How large a network is, how many shortcuts it has, how many queries there are, and what their answers come to: how many
/// pairs the queries at a second have, how many spans the ranges, and the sum of the arrivals of these pairs and spans in
/// seconds.
#[derive(Clone, Copy, Debug, PartialEq, Eq)]
pub struct Totals {
    pub vertices: u64,
    pub arcs: u64,
    pub stops: u64,
    pub trips: u64,
    pub shortcuts: u64,
    pub queries: u64,
    pub pairs: u64,
    pub spans: u64,
    pub arrivals: u64,
}

impl Counts {
    /// Nothing counted.
    pub(crate) fn none() -> Counts
        ensures { result ≡ record { pairs = 0; spans = 0; arrivals = 0 } }
    {
        Counts {
            pairs: 0,
            spans: 0,
            arrivals: 0,
        }
    }

    /// The sums of two counts.
    pub(crate) fn plus(self, other: Counts) -> Counts
        requires pairs { self.pairs + other.pairs < 2 ^ 64 }
        requires spans { self.spans + other.spans < 2 ^ 64 }
        requires arrivals { self.arrivals + other.arrivals < 2 ^ 64 }
        ensures { result ≡ record { pairs = self.pairs + other.pairs; spans = self.spans + other.spans; arrivals = self.arrivals + other.arrivals } }
    {
        Counts {
            pairs: self.pairs + other.pairs,
            spans: self.spans + other.spans,
            arrivals: self.arrivals + other.arrivals,
        }
    }
}
