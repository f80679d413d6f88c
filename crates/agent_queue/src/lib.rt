//! The calls that an agent makes: which trigger is next, what each call was answered, and which calls are
//! open.
//!
//! It serves the task of an agent, which sends and receives the messages; this crate has no ends and no
//! channels. In Qubes OS each call is a process of its own, `qrexec-client-vm`. One queue of all calls, in
//! the order of a file and with at most sixteen open to a target, is this project's own.
#![tactic(auto)]

mod call;
mod index;
mod queue;
mod setup;
mod trigger;

pub use call::CallAnswer;
pub use queue::CallQueue;
pub use trigger::ident_text;
