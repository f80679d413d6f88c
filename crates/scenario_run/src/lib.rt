//! A run of a scenario: its pages are laid, its tasks take turns until all are done, each page is settled,
//! and the report is read off what the tasks answered.
//!
//! It serves the program, and other programs that run scenarios. docs/RUN-LAWS.md says in plain words that
//! the report is lawful whatever the order of all steps.
#![tactic(auto)]

mod answers;
mod copies;
mod lines;
mod page_index;
mod run;
mod run_task;
mod sessions;
mod tasks;
mod unmade;

pub use run::{AloneRun, run_alone, run_scenario};
pub use run_report::{
    CallLine, CallResult, MixedOutcome, Report, ServedLine, SettledPage, report_text, summary_text,
};
