//! Queries over a range of departure seconds.
//!
//! [`departures`] are the seconds of a window at which a passenger is just in time for a ride: whoever leaves between two
//! of them catches no ride that is missed from the later of the two. So a search over a range looks at these seconds
//! alone, from the latest to the earliest.
//!
//! A search keeps a [`Level`] of labels for each number of rides. Labels only fall from second to second: what a later
//! departure reaches an earlier one reaches too. [`rounds`] does all rounds at one second, over the rows of the routes that
//! a group of departures has opened ([`LentRows`]). Whatever the levels hold is a listed journey, and where nothing more
//! comes of them no listed journey is better; what they hold at a second they hold at the second before, but for rides
//! that are just caught there.
#![tactic(auto)]

mod hits;
mod lent;
mod level;
mod ride;
mod round;
mod scan;
mod seconds;
mod stack;
mod walk;

pub use hits::departures;
pub use lent::LentRows;
pub use level::{Level, NEVER, Step};
pub use seconds::rounds;
pub use stack::{clear_levels, new_levels};
