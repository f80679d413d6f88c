//! Calls of a channel that wait: a write, a read, a send and a recv that go on until they are done, on
//! one end of a shared page.
//!
//! Everything that has a thread of its own for a channel rests on it. The calls are those of libxenvchan's
//! io.c in blocking mode: `libxenvchan_write`, `libxenvchan_read`, `libxenvchan_send` and
//! `libxenvchan_recv`, and between their rounds `libxenvchan_wait`. Each is a list of rounds of the
//! calls that don't wait; nothing else moves bytes. A pipe, which is this project's own, sends bytes
//! from one thread to another by a write that waits.
#![tactic(auto)]

pub mod laws;
mod pause;
mod piping;
mod reading;
mod receiving;
mod ring;
mod sending;
mod wait;
mod waking;
mod writing;

pub use piping::pipe;
pub use reading::{BlockRead, read};
pub use receiving::{BlockRecv, recv};
pub use ring::fits_ring;
pub use sending::{BlockSend, send};
pub use writing::{BlockWrite, write};
