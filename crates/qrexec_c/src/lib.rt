//! The messages of qrexec for a program in C or in Rust: a reader of a stream, writers, the two sides of a call,
//! and a broker's decision on one.
//!
//! What a reader keeps are plain numbers and bytes that the caller owns, in which any bits are allowed: numbers of
//! no reader are refused. It keeps no pointer, takes no memory, and calls no function but memcpy and memset. Which
//! bytes are a message, which fault shows and at which offset is as in `qrexec_frame`, whose decoder and definitions
//! the contracts cite; what a side of a call sees, and may send, is as in `qrexec_data`, and a
//! decision as in `call_broker`.
#![tactic(auto)]

mod found;
mod gather;
pub mod laws;
mod pair;
mod pass;
mod put;
mod reader;
mod session;

pub use found::{Found, Span};
pub use gather::{Gather, qrexec_gather};
pub use pair::{Pair, qrexec_pair_call};
pub use pass::{Passing, qrexec_head, qrexec_pass};
pub use put::{
    qrexec_put_connect, qrexec_put_exec, qrexec_put_exit_code, qrexec_put_hello,
    qrexec_put_just_exec, qrexec_put_refused, qrexec_put_stderr, qrexec_put_stdin,
    qrexec_put_stdout, qrexec_put_terminated, qrexec_put_trigger, qrexec_put_trigger3,
};
pub use reader::{Reader, qrexec_next, qrexec_reader_init};
pub use session::{
    Session, qrexec_session_init, qrexec_session_may_send, qrexec_session_next, qrexec_session_sent,
};
