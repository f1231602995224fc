//! What follows for compiled networks, as functions with empty bodies whose contracts state it:
//!
//! - [`exact_answers`]: the listed answers of a right value are exact.
//! - [`listed_transfers`]: what any value finds goes by its own list between rides.
//! - [`fitting_table`]: the table of a value whose parts fit together is one of its network.
//! - [`broken_rides`]: where a ride is missed by least sums, no journey of such walks has the rides.
#![tactic(auto)]

mod laws;

pub use laws::{broken_rides, exact_answers, fitting_table, listed_transfers};
