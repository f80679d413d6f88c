//! The step script: a small language that writes calls on the two ends of one vchan page down, line
//! by line. A script is read and played on a page in memory, on one thread, one call after another,
//! and the answers are printed as text.
//!
//! It serves the program's word `step`, and anyone who wants to see what a row of calls does. The
//! calls, their events and their answers are those of libxenvchan's `io.c`, as `vchan_core` has
//! them; the lines and the text are this project's own.
#![tactic(auto)]

mod error;
pub mod laws;
mod played;
mod player;
mod read;
mod running;
mod script;

pub use error::{ScriptError, ScriptKind};
pub use played::{Played, text};
pub use player::play;
pub use read::parse;
pub use running::script_text;
pub use script::Script;
pub use script_words::{ByteError, bytes_of};
