//! What the answers to a city's queries come to.
//!
//! [`summary`] finds the answer to each query over a compiled network, and adds up how many pairs and spans they have and
//! when these arrive; [`summary_text`] gives the lines that tell it. `specs/Summary.antt` defines the totals,
//! and `specs/Text.antt` the lines; how much may be searched for answers is defined in `answer_rows`.
#![tactic(auto)]

mod found;
mod sum;
mod text;
mod totals;
mod works;

pub use sum::summary;
pub use text::summary_text;
pub use totals::{Counts, Totals};
