//! A server for one client after another: each client has an epoch with a new page of its own, on
//! which one of the built-in services serves it.
//!
//! It serves anyone who keeps a service up for clients that come and go, honest or not. Its purpose
//! is that of `server_persist` in libxenvchan; but there the next client gets the same page, and in
//! this crate it never does. That the side that serves is the vchan server is this project's own
//! choice.
#![tactic(auto)]

mod answering;
mod calling;
mod client;
mod deal;
mod epoch;
mod error;
pub mod laws;
mod lines;
mod scribbling;
mod serve;
mod settle;
mod task;

pub use client::{Client, parse_clients};
pub use epoch::{EpochDone, EpochResult};
pub use error::{ClientsError, ClientsKind};
pub use serve::serve_clients;
