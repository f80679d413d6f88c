//! The scenario: which domains there are, which of them are hostile, and which calls are made.
//!
//! A scenario stands in a file of TOML, whose form is this project's own, or is generated from a
//! seed. The crates that run it rely on what holds of every scenario. This crate also defines what
//! comes of the calls between honest domains, by the services and the names alone.
#![tactic(auto)]

mod act_words;
mod acts;
mod calls;
mod copies;
mod domains;
mod error;
mod file;
mod generator;
mod key_text;
mod keys;
mod laws;
mod line;
mod lookup;
mod names;
mod outcomes;
mod path;
mod place;
mod rings;
mod scenario;
mod spelled;
mod totals;
mod without;

pub use acts::{Act, ActPage, Acts};
pub use error::{ScenarioError, ScenarioKind};
pub use file::read;
pub use generator::generate;
pub use laws::lines_stay_without_hostile;
pub use line::{Line, LineCause, LineResult};
pub use lookup::number_named;
pub use outcomes::honest_lines;
pub use path::{Path, push_fault_line};
pub use scenario::{CallPlan, Domain, Scenario};
pub use script_words::next_number;
pub use spelled::SpelledBytes;
pub use without::without_hostile;
