//! An agent's side of its control channel: what it sends about its own calls and about sessions that are
//! over.
//!
//! It serves the task of an agent, which opens and turns the sessions. In Qubes OS each call is a process of
//! its own. One agent that sends for all of them, in the order of a file and with at most sixteen open calls
//! to a target, is this project's own.
#![tactic(auto)]

mod control;

pub use control::AgentControl;
