//! The broker of calls: which calls between domains are accepted, and with which port.
//!
//! It serves the task that reads the control channels of all domains: each MSG_TRIGGER_SERVICE3,
//! MSG_TRIGGER_SERVICE and MSG_CONNECTION_TERMINATED is an event, and each event has one decision.
//! In Qubes OS the daemons `qrexec-daemon` and `qrexec-policy-daemon` do this; docs/QREXEC.md says
//! which rules are theirs and which are this project's own.
#![tactic(auto)]

mod broker;
mod calls;
mod decision;
mod entering;
mod event;
mod index;
pub mod laws;
mod ports;
mod table;

pub use broker::Broker;
pub use decision::{Cause, Decision, Entry};
pub use event::Event;
pub use index::DomainEntry;
pub use ports::port_after;
