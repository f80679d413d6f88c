//! One end of a channel as a pure machine, and a page in memory with its two ends.
//!
//! The crate `vchan_protocol` defines what each call does, event by event; this crate exports its types
//! and laws too.
//!
//! The step player, which drives a page in memory, rests on this crate, and so does the shared page,
//! which drives the same machine over a table of words.
#![tactic(auto)]

mod carry;
mod ends;
mod kept;
mod machine;
mod phase;
mod plain;
mod start;
mod steps;
mod totals;
mod whole_call;
pub mod words;

pub use kept::{AnswerNumbers, Kept, role_of, state_of};
pub use machine::{Ahead, LastNotify, Machine, Span};
pub use phase::Refusal;
pub use plain::Plain;
pub use start::start_words;
pub use steps::Steps;
pub use vchan_protocol::{
    Answer, Asked, Begun, Bit, Call, EndState, EndedBy, Notes, Op, PastEvent, Side, laws,
};
