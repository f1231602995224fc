//! Files of queries.
//!
//! `read_queries` reads a table of queries for a network, or names the first rule that it breaks. `specs/Rules.antt` and
//! `specs/Places.antt` define the rules of a row, each a test into an optional cause, and `specs/Queries.antt` those of a
//! file: what an accepted file is, its queries, and the first refusal of any other.
#![tactic(auto)]

mod columns;
mod place;
mod read;
mod row;
mod stops;

pub use read::read_queries;
