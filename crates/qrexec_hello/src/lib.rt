//! The greeting of a qrexec channel: each side sends its version first, and both go on with the
//! lower one.
//!
//! It serves the two sides of a call, and the agent and the broker on a control channel. The
//! message is `MSG_HELLO` of the qrexec protocol; this crate supports versions 2 and 3.
#![tactic(auto)]

mod hello;

pub use hello::{Hello, HelloFault};
