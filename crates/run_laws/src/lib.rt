//! The laws of a run: what holds of its report, whatever the order of all steps.
//!
//! It serves the crates that run a scenario by the tasks of its domains and of the broker. Each law
//! is a function with no body, whose contract is the law. Together they say that a lawful report
//! can be read off the run, by what the tasks owe and what settled pages promise. The types of a report
//! stand here too.
#![tactic(auto)]

pub mod laws;
mod report;
mod standing;

pub use report::{CallLine, CallResult, MixedOutcome, Report, ServedLine, SettledPage};
pub use standing::Standing;
