//! A captured stream of qrexec as text: the pieces of the stream stand as byte strings, one to a
//! line, and each message that they make up is printed as a line.
//!
//! It serves the program's word `decode`, and anyone who wants to read what went over a channel.
//! The messages and their lines are those of `qrexec_frame`; the input and the last line of the
//! text are this project's own.
#![tactic(auto)]

mod decode;
mod error;
mod listing;
mod piece;

pub use decode::decode_text;
pub use error::{DecodeError, DecodeKind};
pub use qrexec_frame::Channel;
