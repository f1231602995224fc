//! Runs a generated city, for trying the planner at any size without a file.
//!
//! [`city_words`] reads the numbers of a city from words, and [`run_city`] makes the city of three numbers, compiles its
//! network, finds the answers to its queries, and sends the lines of their summary. `specs/Words.antt` defines what the words
//! name, and `specs/Sent.antt` what is sent.
#![tactic(auto)]

mod run;
mod words;

pub use run::{CityStop, run_city};
pub use words::{CityWords, city_words};
