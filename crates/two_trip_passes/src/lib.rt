//! The passes of the search for needed walks between two rides.
//!
//! At each second of a place the search makes them in this order, on what is kept from later seconds. The laws say what they
//! leave: labels that are closed again, and real, and tell exactly the needed walks.
//!
//! - [`board_all`] boards first rides from all stops that are walked to before a second from where the passenger sets out.
//! - [`walk_all`] walks on from all stops where first rides are left.
//! - [`ride_all`] boards second rides from all stops where the passenger is ready earlier than before.
//! - [`read_until`] tells until when the labels may tell of needed walks that aren't known.
//! - [`read_all`] reads needed walks off the labels.
//! - [`own_all`] puts down the least arrivals of the rides from the stops themselves.
#![tactic(auto)]

mod laws;
mod own;
mod read;
mod rides;
mod stops;
mod walks;

pub use laws::{labels_read, own_stands, passes_close, real_last, rides_real, walks_real};
pub use own::own_all;
pub use read::{read_all, read_until};
pub use rides::ride_all;
pub use stops::board_all;
pub use walks::walk_all;
