//! All data ends of one agent: which are unused, which have an open session, and which are over.
//!
//! It serves the task of an agent, which decides when a session begins and reports to the broker which are
//! over. The ends stay in the order in which they were given, and all of them come back retired. A page that
//! isn't laid yet is laid when the agent calls, and a session that serves waits for that.
#![tactic(auto)]

mod done;
mod ending;
mod ends;
mod finish;
mod index;
mod note;
mod opening;
mod setup;
mod side;
mod slot;
mod slots;
mod stage;

pub use done::{CallOver, DataDone};
pub use side::retire_given;
pub use slots::DataSlots;
