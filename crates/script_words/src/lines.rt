//! The lines of a text one after another, without those that are skipped.
ghost use Rattle.std.specs.Prelude.{◌≡◌, ◌≤◌};
ghost use Rattle.script_words.specs.KeptLines.{is_passed_over};

use crate::words::first_line;
use thiserror::Error;

/// The greatest number of lines that a text may have.
pub const MOST_LINES: u32 = 65_536;

/// The error of a text with more than [`MOST_LINES`] lines.
#[derive(Clone, Copy, Debug, PartialEq, Eq, Error)]
#[error("line {line}: too many lines")]
pub struct TooManyLines {
    /// The number of the first line that is too many.
    pub line: u32,
}

/// What comes next in a text: a line, or its end.
#[derive(Clone, Copy, Debug, PartialEq, Eq)]
pub enum NextLine<'a> {
    /// A line, with its number.
    Line {
        /// Its number, from 1 on.
        number: u32,
        /// Its bytes, without the line feed.
        text: &'a [u8],
    },
    /// No line is left.
    End {
        /// The number that one more line would have.
        number: u32,
    },
}

/// The lines of a text that haven't been read yet. An empty line and one that begins with `#` are
/// skipped, but counted.
#[derive(Clone, Copy)]
pub struct LineReader<'a> {
    rest: &'a [u8],
    passed: u32,
    ghost few: { passed ≤ 65536 },
}

impl<'a> LineReader<'a> {
    ghost use Rattle.std.specs.Prelude.{length};
    ghost use Rattle.script_words.specs.KeptLines.{kept_lines};
    ghost use Rattle.script_words.specs.LinesLeft.{lines_left, IsNext};
    ghost use Rattle.script_words.specs.Words.{lines_of};

    /// Begins at the first line of these bytes.
    pub fn of(bytes: &'a [u8]) -> LineReader<'a>
        ensures { lines_left result ≡ kept_lines 1 (lines_of bytes.now) }
    {
        LineReader {
            rest: bytes,
            passed: 0,
        }
    }

    /// Returns the next line that isn't skipped.
    ///
    /// # Errors
    ///
    /// [`TooManyLines`] if and only if that line, or one before it, is the 65,537th.
    pub fn next(&mut self) -> Result<NextLine<'a>, TooManyLines>
        ensures { IsNext result (lines_left self.old) (lines_left self.new) }
    {
        while let Some((text, rest)) = first_line(self.rest) {
            if self.passed == MOST_LINES {
                return Err(TooManyLines {
                    line: self.passed + 1,
                });
            }
            self.rest = rest;
            self.passed += 1;
            if !is_passed_over(text) {
                return Ok(NextLine::Line {
                    number: self.passed,
                    text,
                });
            }
        }
        Ok(NextLine::End {
            number: self.passed + 1,
        })
    }
}

/// Returns whether a line is skipped: it is empty, or begins with `#`.
fn is_passed_over(line: &[u8]) -> bool
    ensures { result ≡ is_passed_over line.now }
{
    match line {
        [] => true,
        [first, ..] => *first == b'#',
    }
}
