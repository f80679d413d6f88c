//! The lines and words of this project's scripts: cutting bytes into lines and lines into words,
//! decimal numbers, and byte strings; and the words of printed lines.
//!
//! It serves every reader of a text of lines: step scripts, the pieces of a stream that is decoded,
//! and lists of clients; and by [`text`] what prints lines. All forms are this project's own.
#![tactic(auto)]

mod byte_string;
mod digits;
mod lines;
mod number;
pub mod text;
mod words;

pub use byte_string::{ByteError, PushError, bytes_of, push_bytes_of};
pub use lines::{LineReader, MOST_LINES, NextLine, TooManyLines};
pub use number::{is_number, next_number, parse_number};
pub use words::{WordsOfLine, cut_at, first_line, place_in};
