//! A whole call of qrexec in one thread, which provably ends.
//!
//! Both sides of the call stand on one page in memory, and are turned one after the other until the
//! caller has read how the call came out. That is what the service gives, after no more turns than
//! the length of the input allows.
#![tactic(auto)]

mod driving;
mod page;
mod sides;

pub use driving::{CallEnd, CallPage, Speech, drive};
