//! A pool of workers that runs tasks turn by turn, with one `Done` for each task.
//!
//! A task is a value that makes one turn at a time. Workers take tasks from one queue, make one
//! turn and give them back, until each task is done. Other crates build on it: their tasks are the
//! domains of a run, the clients of a persistent server or the hops of a relay.
#![tactic(auto)]

mod account;
mod enqueue;
mod pool;
mod progress;
mod queue;
mod quiet;
mod rounds;
mod task;
mod turn;
mod waiting;
mod worker;

pub use pool::{MOST_WORKERS, run_pool};
pub use rounds::{Rounds, run_rounds};
pub use task::{PoolTask, Turn};
