//! The messages of qrexec, the service calls of Qubes OS: how each is written, and how a stream of
//! them is read.
//!
//! It serves every crate that speaks qrexec: the two sides of a call, the broker and the scenarios.
//! The types, bodies and limits are those of the descriptions of the qrexec protocol, versions 2
//! and 3, and so are the names: `MSG_HELLO`, `MSG_DATA_STDIN` and so on. A message is a header of
//! two 32-bit numbers, type and length, and a body of that length, all little-endian.
#![tactic(auto)]

mod bytes;
mod clean;
mod decoder;
mod encoding;
mod fault;
mod front;
mod kind;
pub mod laws;
mod line;
mod message;
mod text;

pub use bytes::Bytes;
pub use clean::{clean_name, clean_service, clean_target};
pub use decoder::Decoder;
pub use encoding::{encode, encode_data};
pub use fault::{FrameFault, NextError};
pub use front::{Body, field_bytes, header_kind, line_bytes, u32_at};
pub use kind::{Channel, Kind};
pub use line::{message_line, push_message_line};
pub use message::{Message, fits};
pub use text::{Text, TextError};
