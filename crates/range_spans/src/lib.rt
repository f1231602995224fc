//! The spans of a range, from its last second to its first.
//!
//! A walk over the seconds of a window from late to early says at each second which pair of arrival and number of rides is
//! best for each number of rides. A pair that is best at two seconds is best at each between them, so for each number of
//! rides there is one open span at most. It is closed where its pair is best no more, and the closed spans, turned round,
//! stand by their first second and then by their trips.
#![tactic(auto)]

mod pending;

pub use pending::{OpenSpan, close_spans, finish_spans};
