//! The values of a feed's tables that the GTFS Schedule Reference names: latitudes, longitudes and dates.
#![tactic(auto)]

mod coordinates;
mod dates;

pub use coordinates::coordinate;
pub use dates::date;
