//! The two sides of a qrexec call, as each reads and writes the bytes of the call's data channel.
//!
//! It serves the tasks of domains, which move these bytes through a ring; its definitions serve the
//! laws of whole runs. The messages are qrexec's `MSG_HELLO`, `MSG_DATA_STDIN`, `MSG_DATA_STDOUT`,
//! `MSG_DATA_STDERR` and `MSG_DATA_EXIT_CODE`. In which order they are sent, and which of them is
//! wrong on which side, is this project's choice.
#![tactic(auto)]

mod answering;
mod caller;
mod half;
mod inbox;
pub mod laws;
mod outcome;
mod replies;
mod requests;
mod serving;
mod unsent;

pub use caller::{Caller, CallerParts};
pub use half::Half;
pub use outcome::{Outcome, SessionFault};
pub use serving::Serving;
