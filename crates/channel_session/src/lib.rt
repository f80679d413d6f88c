//! The two sides of a qrexec call, with the end of its data channel: what a session reads comes
//! from the end, and what it sends goes there.
//!
//! It serves the tasks of a run. A turn drains the end once and writes what is at the front of the
//! session, and waits for nothing; a turn that most likely would move nothing is passed over. Each
//! turn answers which of these it was, and by what it found. Which side is the vchan server is this
//! project's own choice.
#![tactic(auto)]

mod caller;
mod pause;
mod serving;
mod session;

pub use caller::{CallerEnd, CallerSession};
pub use pause::Turned;
pub use serving::{ServingEnd, ServingSession};
pub use session::Session;
