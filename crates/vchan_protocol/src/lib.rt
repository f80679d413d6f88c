//! The protocol of a channel: its calls, their events and answers, all that an end does, and the laws of
//! these. It has no code besides small types; the machine of one end is a crate of its own.
//!
//! The events of each call, and their order, are those of libxenvchan's io.c in non-blocking mode
//! on the fields of Xen's public/io/libxenvchan.h, without io.c's loads of the end's own indices:
//! an end keeps its own counts instead. The calls `Drain`, `PeerGone` and `Retire` are this project's.
//!
//! Everything that runs an end of a channel rests on it: the machine, whose contracts cite these
//! definitions, and a table of words that several threads share.
#![tactic(auto)]

mod call;
pub mod laws;
mod op;
mod side;

pub use call::{Answer, Bit, Call, EndState};
pub use op::{Op, PastEvent};
pub use side::{Asked, Begun, EndedBy, Notes, PastCall, Side};
