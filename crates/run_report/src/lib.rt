//! The text of the report of a run.
//!
//! It serves programs that run a scenario. `run_laws` has the types of a report, and says what a lawful one
//! is; this crate has its text, the text of its sums, and the words with which other crates print lines of
//! their own.
#![tactic(auto)]

mod lines;
mod summary;
mod text;

pub use run_laws::{CallLine, CallResult, MixedOutcome, Report, ServedLine, SettledPage};
pub use script_words::text::{push_bytes, push_number};
pub use summary::summary_text;
pub use text::report_text;
