//! The task of an agent. It makes the calls of its domain, serves those of others, and reports what came of
//! all of them.
//!
//! It serves a run, which turns the tasks of all domains. In Qubes OS `qrexec-agent` does this work, with
//! processes of their own for each call. One task with all sessions of a domain is this project's own.
#![tactic(auto)]

mod agent;
mod answering;
mod boxed;
mod finishing;
mod hearing;
mod line;
mod task;

pub use task::{AgentDone, AgentTask};
