//! Rounds of rides over the routes of a day, with listed transfers between the rides.
//!
//! The question: a passenger leaves at a second, comes to each stop by a first row of seconds on foot, goes on from where
//! a ride is left by one entry of a list of transfers or stays there, and comes to the end from each stop by a last row.
//! [`Rounds::best`] is the least arrival of such a journey with 1 to k rides, and [`Rounds::legs`] are the rides of one
//! that attains it, for every row and list that fits, whatever their seconds mean.
//!
//! [`Rounds::new`] takes all memory, and [`Rounds::run`] answers a question in it, in the manner of RAPTOR (Delling,
//! Pajor, Werneck: Round-based public transit routing, ALENEX 2012) with transfer shortcuts (Baum, Buchhold, Sauer,
//! Wagner, Zündorf: UnLimited TRAnsfers, ESA 2019): round k rides on each route where some stop got better in round
//! k - 1, from the first such call on, and then walks on from each stop where a ride was left earlier than before.
//! Labels that come no earlier than the best arrival are dropped.
#![tactic(auto)]

mod entries;
mod go_on;
mod labels;
mod legs;
mod round;
mod rounds;
mod scan;
mod sparse_row;
mod sparse_set;
mod starts;
mod turns;

pub use entries::{Spans as EntrySpans, entries_of, new_spans, span_list};
pub use rounds::Rounds;
pub use sparse_set::SparseSet;
