//! What the tasks of a run owe: the agent of a domain, the task of the broker, and the task of a
//! hostile domain.
//!
//! It serves the crates that implement these tasks and those that rest on them. It has no code but
//! small types: what a task owes is defined by what it was given, by the lists and facts of its
//! ends after they are retired, and by what it reports. In Qubes OS `qrexec-agent` and
//! `qrexec-daemon` do what an agent and the broker do in this project; docs/QREXEC.md says which
//! rules are theirs and which are this project's own.
#![tactic(auto)]

mod done;
mod ends;
pub mod laws;
mod place;

pub use done::{CallDone, CallEnd, CallerDone, ControlEnd, ServedDone, SessionEnd};
pub use ends::{DataEnd, DoneEnd, RetiredEnd, TaskTurn, UnmadeEnds, UnusedEnd};
pub use place::PagePlace;
