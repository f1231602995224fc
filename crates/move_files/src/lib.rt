//! The outside: files and sinks that are handed in, what they hold, and how often they have failed.
//!
//! A program reads and writes through the traits `Files` and `Sink` alone. Their ghost members say what an object holds,
//! where it tells, and count its faults: a fault is answered only where a count rose, so over an object whose count
//! is the constant 0 it is never answered. `DiskFiles` and `StdSink` are the edge to the system; the files and sinks in
//! memory tell all that they hold, and can be made to fail.
#![tactic(auto)]

mod disk_files;
mod mem_files;
mod mem_sink;
mod outside;
mod safe_files;
mod safe_sink;
mod std_sink;
mod whole;

pub use disk_files::DiskFiles;
pub use mem_files::MemFiles;
pub use mem_sink::MemSink;
pub use outside::{Files, ReadFail, Sink, WriteFail};
pub use safe_files::SafeFiles;
pub use safe_sink::SafeSink;
pub use std_sink::StdSink;
pub use whole::{ReadStop, read_whole, write_whole};

/// Want of memory.
pub use std::alloc::AllocError as NoMemory;
