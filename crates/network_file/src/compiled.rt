// What a network is compiled to.
use bucket_walks::Buckets;
use move_model::{Network, Shortcuts};
use route_split::Timetable;
use walk_hierarchy::Hierarchy;

/// A network with what its answers need: its trips by routes, a hierarchy of its streets, the buckets of its stops, and
/// the walks between stops by which a passenger may change.
#[derive(Drop)]
pub struct Compiled {
    pub network: Network,
    pub table: Timetable,
    pub hierarchy: Hierarchy,
    pub buckets: Buckets,
    pub shortcuts: Shortcuts,
}
