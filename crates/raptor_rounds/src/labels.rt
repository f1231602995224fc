// What a run knows of stops.
use crate::sparse_row::SparseRow;
use crate::sparse_set::SparseSet;
use move_model::Ride;

/// A ride, and behind which slot the rides before it are found, or 0 where it is the first.
#[derive(Clone, Copy)]
pub struct Step {
    pub ride: Ride,
    pub by: u32,
}

/// When a ride was left at each stop, by which step, where this is new in the round, and the best arrival.
#[derive(Drop)]
pub struct Found {
    pub left: SparseRow,
    pub steps: Vec<Step>,
    pub fresh: SparseSet,
    pub best: u64,
    pub best_step: Step,
}

/// When the passenger is ready at each stop, behind which slot, and where that got better.
#[derive(Drop)]
pub struct Ready {
    pub seconds: SparseRow,
    pub by: Vec<u32>,
    pub better: SparseSet,
}

/// The least arrival with so many rides, or the greatest number where there is none, and the last ride.
#[derive(Clone, Copy)]
pub struct Best {
    pub second: u64,
    pub step: Step,
}
