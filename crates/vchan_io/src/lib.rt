//! Where the bytes of a vchan program come from and go to: sources and sinks that count their faults.
//!
//! Generic code reads and writes through `Source` and `Sink`, and its contracts use only their ghost
//! members. `MemSource` and `MemSink` work on memory and fail at calls that their maker chooses, for tests
//! and for callers that have their bytes at hand. `StdSource` and `StdSink` wrap the readers and writers of
//! `std::io`; short counts and errors mean the same for all of them as in `std::io`. `Memory` is the error
//! of running out of memory that the crates above return.
#![tactic(auto)]

mod faults;
mod mem_sink;
mod mem_source;
mod reading;
mod sink;
mod source;
mod std_sink;
mod std_source;
mod writing;

pub use faults::{Failed, Memory};
pub use mem_sink::MemSink;
pub use mem_source::MemSource;
pub use reading::{GREATEST_LIMIT, ReadAllError, read_all};
pub use sink::Sink;
pub use source::Source;
pub use std_sink::StdSink;
pub use std_source::StdSource;
pub use writing::{WriteFault, write_all};
