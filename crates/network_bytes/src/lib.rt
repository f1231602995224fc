//! The entries of a network file as bytes: numbers with the highest byte first, names behind one byte of length, and
//! lists behind their number of items.
//!
//! What is read is a function of the bytes at the front; it is the one value with this form, and None where the bytes are
//! cut off or are no form.
//!
//! - [`put_word`] and [`put_long`] write numbers, [`word`] and [`long`] read them.
//! - [`Entry`] is what can be an item of a list, [`put_entries`] writes items, and [`entries`] reads them.
//! - [`put_short_list`] and [`put_long_list`] write lists, [`short_list`] and [`long_list`] read them.
#![tactic(auto)]

mod compiled;
mod entry;
mod lists;
mod names;
mod network;
mod numbers;
mod stop;

pub use entry::{Entry, entries, put_entries};
pub use lists::{long_list, put_long_list, put_short_list, short_list};
pub use numbers::{long, put_long, put_word, word};
pub use stop::ReadStop;
