//! The services that answer calls, and the gate that a worker of a pool passes.
//!
//! A service reads its input piece by piece, writes to two outputs and ends with an exit code, as
//! the program at the other end of a qrexec service call does. The built-in services stand for such
//! programs; a caller may pass a service of its own. The crates of sessions, of the broker and of
//! the pool of workers build on this one.
#![tactic(auto)]

mod answer;
mod append;
mod boxed;
mod builtin;
mod naming;
mod service;

pub use answer::{Answer, serve};
pub use boxed::Boxed;
pub use builtin::Builtin;
pub use naming::{every_service, services_by_name};
pub use service::{Gate, OpenGate, Service};
