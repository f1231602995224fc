// Entries of buckets.
use move_model::{List, NodeNo, StopNo};

/// So many seconds between a vertex and a stop: in a list of entries to stops from the vertex to the stop, and in one of
/// entries from stops the other way.
#[derive(Clone, Copy, Debug, PartialEq, Eq)]
pub struct Bucket {
    pub node: NodeNo,
    pub stop: StopNo,
    pub seconds: u64,
}

/// Entries to stops, or entries from stops.
pub type BucketList = List<Bucket>;
