// Queries.
use crate::{List, Name, NodeNo};

/// A source or target: its vertex, and the word that named it.
#[derive(Debug, Drop)]
pub struct Place {
    pub node: NodeNo,
    pub word: Name,
}

/// A query: one departure second, or every departure second of a window. Its limit is the greatest
/// number of trips of a journey.
#[derive(Debug, Drop)]
pub enum Query {
    At {
        from: Place,
        to: Place,
        depart: u32,
        limit: u8,
    },
    Range {
        from: Place,
        to: Place,
        first: u32,
        last: u32,
        limit: u8,
    },
}

/// The queries of a file, in its order.
pub type Queries = List<Query>;
