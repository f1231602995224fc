// Which trips go together.
ghost use Rattle.std.specs.Prelude.{◌≡◌, ◌<◌, ◌≤◌, ◌-◌, ◌^◌, ℕ, length, slice_index, IfOk};
ghost use Rattle.route_split.specs.Split.{IsSplit};

use crate::chains::Chains;
use move_model::{NoMemory, Trip};
use std::alloc::Global;

/// The number of each trip's route, and how many routes there are.
#[derive(Drop)]
pub struct RouteNumbers {
    pub routes: Vec<u32>,
    pub count: usize,
}

/// Each trip goes to a route behind whose last trip it can stand, or opens one.
pub fn split(alloc: Global, trips: &[Trip]) -> Result<RouteNumbers, NoMemory>
    requires { length trips.now < 2 ^ 32 - 1 }
    ensures split { IfOk result (λ split. IsSplit trips.now split.routes.items (length trips.now) split.count) }
    ensures used { IfOk result (λ split. (g : ℕ) → g < split.count → (t : ℕ) × (t < length trips.now) × (slice_index split.routes.items t ≡ g)) }
    ensures few { IfOk result (λ split. split.count ≤ length trips.now) }
{
    let mut chains = Chains::new(alloc, trips.len() + 1)?;
    let mut routes: Vec<u32> = Vec::new(alloc);
    for u in 0..trips.len() {
        let chain = chains.chain_of(trips, u);
        match chains.route_for(trips, u, chain) {
            Some(g) => {
                routes.push(g as u32)?;
                chains.join(alloc, trips, g, u)?;
            }
            None => {
                routes.push(chains.lasts.len() as u32)?;
                chains.open(alloc, trips, u, chain)?;
            }
        }
    }
    let count = chains.lasts.len();
    Ok(RouteNumbers { routes, count })
}
