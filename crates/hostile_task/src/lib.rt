//! The task of a hostile domain: it carries out a list of acts on the pages of the domain, and then
//! retires all its ends.
//!
//! It serves a run that plays such domains against honest ones. The acts are this project's own.
#![tactic(auto)]

mod carry_out;
mod domain;
mod page;
mod pages;
mod progress;
mod say;
mod spell;
mod task;

pub use domain::HostileDomain;
pub use pages::field_of;
pub use task::{HostileDone, HostileTask};
