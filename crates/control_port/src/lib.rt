//! One end of a control channel. It sends whole messages and hands out those that come one by one, up to the
//! first wrong one.
//!
//! It serves the two sides of such a channel, an agent and the broker. The messages are those of the qrexec
//! protocol. This project decided that each goes as one packet, and which side greets first.
#![tactic(auto)]

mod moves;
mod port;
mod talk;

pub use port::ControlPort;
pub use talk::Talker;
