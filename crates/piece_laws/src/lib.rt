//! What the pieces of a start are made of, and when a walk between two rides is needed.
//!
//! A search for shortcuts sets out from a vertex at a second, and keeps labels at stops: when a first ride is left, when
//! the passenger is then ready for a second one, and when that one is left. The laws say, over the definitions alone,
//! what such labels decide. They are functions with empty bodies, whose contracts state them:
//! - `kept_earlier`: what is true from a second is true from every earlier one, so labels last.
//! - `labels_compose`: least labels make least labels, ties kept.
//! - `read_exactly`: which needed walks are read off the labels of a start.
//! - `shortcuts_by_start`: the shortcuts are the needed walks of all starts, by stop or by vertex.
#![tactic(auto)]

mod labels;
mod laws;

pub use labels::{Held, Ready, Second, held_less, ready_less, second_less};
pub use laws::{kept_earlier, labels_compose, read_exactly, shortcuts_by_start};
