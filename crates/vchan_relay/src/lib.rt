//! A relay: it reads the near channel and writes what it got to the far one.
//!
//! Everything that passes a stream through a domain between two others, or through a row of such domains,
//! whose relays run as tasks of a pool, rests on it. The form of a relay is this project's own.
#![tactic(auto)]

mod deal;
mod draining;
mod hop;
pub mod laws;
mod lay;
mod reader;
mod relay;
mod run;
mod settle;
mod task;
mod turn;
mod writer;

pub use relay::{Joint, Relay, RelayRefused};
pub use run::{Relayed, relay_run};
pub use turn::RelayTurn;
