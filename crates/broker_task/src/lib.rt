//! The task of the broker of calls. It reads what all domains send, decides each call that they trigger, and
//! lets through those that it accepts.
//!
//! It serves a run, which plays such domains against each other. In Qubes OS `qrexec-daemon` and
//! `qrexec-policy-daemon` do this, one `qrexec-daemon` for each domain; docs/QREXEC.md says what is theirs and
//! what is this project's own.
#![tactic(auto)]

mod daemon;
mod ends;
mod outbox;
mod reply;
mod round;
mod settled;
mod switchboard;
mod task;

pub use task::{BrokerDone, BrokerTask};
