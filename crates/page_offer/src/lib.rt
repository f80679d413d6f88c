//! A page that is made at its first use: its server makes it and offers it to the client, as libxenvchan's
//! server allocates the rings and tells its client where they are.
//!
//! The data pages of a run, which are many and of which few are in use at a time, rest on it. How an offer
//! reaches the client is this project's own.
#![tactic(auto)]

mod back;
mod client;
mod left;
mod offer;
mod server;
mod settling;

pub use client::{DoneClient, OpenClient, UnlaidClient};
pub use server::{DoneServer, LaidPage, OpenServer, UnlaidServer, unlaid};
pub use settling::{OfferedPage, settle};
