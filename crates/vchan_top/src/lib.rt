//! All that the program does, over any source and any two sinks: its words, its input, its output and how it ends.
//!
//! [`top`] is the whole program, and its contract is what the program promises. `vchan` above it only makes the
//! real source and sinks, and hands this out.
#![tactic(auto)]

mod about;
mod channels;
mod clients;
mod command;
mod entry;
mod run_end;
mod runs;
mod service_name;
mod status;
mod work;

pub use about::{About, about_in, tell};
pub use command::{Command, command_in, command_words};
pub use entry::{GREATEST_INPUT, report_status, top};
pub use run_end::RunEnd;
pub use run_report::Report;
pub use runs::{leave_to_exit, load_text};
pub use status::{Bad, Status, exit_number};
pub use stream_text::{Channel, DecodeError, DecodeKind, decode_text};
