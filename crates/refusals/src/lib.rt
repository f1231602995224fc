//! The words in which a reader of an input says what it refuses.
//!
//! A rule is a test of a place of the input into an optional cause: None where the rule holds there. The rules of a
//! row stand in a list, in their order. `specs/Refusal.antt` says from such lists what an accepted input is, which rule
//! is the first that is broken, and which row is the first that is refused; `proofs/RefusalLemmas.antt` has what a
//! reader's proof needs of these words. The crate has no code that runs: `one_answer` is a law.
#![tactic(auto)]

mod law;

pub use law::one_answer;
