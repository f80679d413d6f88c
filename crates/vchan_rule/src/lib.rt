//! A page as a table of words that two seats share, one for each end. Each event of an end is one
//! atomic step on one word. The rule that holds between any two steps is that the words and what the two
//! ends have done make up a core state of the protocol.
//!
//! The crates of calls, which two threads make on the two ends of one page, rest on it. What an end does
//! is the machine of `vchan_core`, after Xen's libxenvchan; that an end may be turned over to a hostile
//! user is this project's own.
#![tactic(auto)]

mod end;
mod end_seat;
mod held;
mod page;
mod rule;
mod steps;
mod turned;
mod words;

pub use end::End;
pub use held::HeldPage;
pub use page::{IdleSeat, Page, Settled, StartWords};
pub use turned::{Retired, TurnedEnd};
