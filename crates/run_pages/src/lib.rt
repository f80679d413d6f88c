//! The pages of a run: made for a scenario, dealt to its tasks, and settled once the tasks are done.
//!
//! It serves programs that run a scenario. Each domain has a control page with the broker, and each call a
//! data page between its caller and its target; a hostile caller has as many as it has ports. A data page
//! between two honest domains is laid at its first use, and each other page before the first turn. The order
//! of the pages' places, and when pages are laid, are this project's own.
#![tactic(auto)]

mod deal;
mod hostile;
mod lay;
mod places;
mod routes;
mod settle;
mod starts;

pub use deal::{Dealt, Hand};
pub use hostile::is_hostile;
pub use lay::{PageSeats, RunPages};
pub use places::page_table;
pub use starts::RunStarts;
