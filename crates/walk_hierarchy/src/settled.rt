// What a search up or down leaves.
use move_model::NodeNo;

/// A vertex that a search came to, and the least seconds between it and where the search began.
#[derive(Clone, Copy, Debug, PartialEq, Eq)]
pub struct Settled {
    pub node: NodeNo,
    pub seconds: u64,
}
