// The rules of a network.
ghost use Rattle.std.specs.Prelude.{◌<◌, ◌-◌, ◌^◌, ◌↔◌, IsTrue, All, length};
ghost use Rattle.move_model.specs.Check.{KeepsRules};
ghost use Rattle.network_rules.specs.Rules.{HaveFewCalls};

use move_model::{Network, Trip};

// No network has more calls.
const MOST_CALLS: usize = 20_000_000;

/// Whether the network keeps the rules.
pub fn keeps(network: &Network) -> bool
    requires arcs { length network.now.arcs < 2 ^ 32 - 1 }
    requires stops { length network.now.stops < 2 ^ 32 - 1 }
    requires trips { length network.now.trips < 2 ^ 32 - 1 }
    requires calls { All (λ trip. length trip.calls < 2 ^ 32 - 1) network.now.trips }
    ensures { IsTrue result ↔ KeepsRules network.now }
{
    match network.check() {
        Ok(()) => true,
        Err(_) => false,
    }
}

/// Whether the trips have 20,000,000 calls at most.
pub fn have_few_calls(trips: &[Trip]) -> bool
    ensures { IsTrue result ↔ HaveFewCalls trips.now }
{
    let mut left = MOST_CALLS;
    for trip in trips {
        if trip.calls.len() > left {
            return false;
        }
        left -= trip.calls.len();
    }
    true
}
