//! Why bytes aren't a script.
ghost use Rattle.std.specs.Prelude.{◌≡◌};

use script_words::{PushError, TooManyLines};
use std::alloc::{AllocError, AllocFailed};
use thiserror::Error;

/// What is wrong with a line of a script.
#[derive(Clone, Copy, Debug, PartialEq, Eq, Error)]
pub enum ScriptKind {
    /// The first line that isn't skipped is not an `open` or `fresh` line, or there is none.
    #[error("bad header")]
    BadHeader,
    /// The line has no form that is allowed at its place.
    #[error("bad line")]
    BadLine,
    /// A word isn't a number, or is a number out of range.
    #[error("bad number")]
    BadNumber,
    /// A word isn't a byte string.
    #[error("bad hex")]
    BadHex,
    /// No page can have these two orders.
    #[error("bad orders")]
    BadOrders,
    /// The line is the 65,537th.
    #[error("too many lines")]
    TooManyLines,
    /// With this line, the byte strings have more than 8,388,608 bytes.
    #[error("too many bytes")]
    TooManyBytes,
}

/// Why bytes weren't read as a script.
#[derive(Clone, Copy, Debug, PartialEq, Eq, Error)]
pub enum ScriptError {
    /// The first line that doesn't fit, counted from 1, and what is wrong with it.
    #[error("line {line}: {kind}")]
    Bad {
        /// The number of the line, from 1 on.
        line: u32,
        /// What is wrong with it.
        kind: ScriptKind,
    },
    /// Memory ran out for the script.
    #[error("out of memory")]
    Memory,
}

impl From<AllocError> for ScriptError {
    ghost use Rattle.step_script.specs.declared.error.ScriptError.TheVariants.{Memory};

    ghost from_gives = { λ _ e. e ≡ Memory };

    fn from(_e: AllocError) -> ScriptError {
        ScriptError::Memory
    }
}

impl From<vchan_io::Memory> for ScriptError {
    ghost use Rattle.step_script.specs.declared.error.ScriptError.TheVariants.{Memory};

    ghost from_gives = { λ _ e. e ≡ Memory };

    fn from(_e: vchan_io::Memory) -> ScriptError {
        ScriptError::Memory
    }
}

impl<T: Drop> From<AllocFailed<T>> for ScriptError {
    ghost use Rattle.step_script.specs.declared.error.ScriptError.TheVariants.{Memory};

    ghost from_gives = { λ _ e. e ≡ Memory };

    fn from(_e: AllocFailed<T>) -> ScriptError {
        ScriptError::Memory
    }
}

/// Why a line wasn't read.
#[derive(Clone, Copy)]
pub(crate) enum LineError {
    /// It doesn't fit.
    Bad(ScriptKind),
    /// Memory ran out for it.
    Memory,
}

impl LineError {
    ghost use Rattle.step_script.specs.Parts.Readings.{error_at};

    /// Returns the error of a script whose line of this number has this error.
    pub(crate) fn at(self, line: u32) -> ScriptError
        ensures { result ≡ error_at self line }
    {
        match self {
            LineError::Bad(kind) => ScriptError::Bad { line, kind },
            LineError::Memory => ScriptError::Memory,
        }
    }
}

impl From<ScriptKind> for LineError {
    ghost use Rattle.step_script.specs.declared.error.LineError.TheVariants.{Bad};

    ghost from_gives = { λ kind e. e ≡ Bad kind };

    fn from(kind: ScriptKind) -> LineError {
        LineError::Bad(kind)
    }
}

impl From<PushError> for LineError {
    ghost use Rattle.step_script.specs.Parts.Readings.{line_error_of};

    ghost from_gives = { λ push_error e. e ≡ line_error_of push_error };

    fn from(error: PushError) -> LineError {
        match error {
            PushError::BadHex => LineError::Bad(ScriptKind::BadHex),
            PushError::TooManyBytes => LineError::Bad(ScriptKind::TooManyBytes),
            PushError::Memory => LineError::Memory,
        }
    }
}

/// A bad line, found by a reader that takes no memory.
#[derive(Clone, Copy)]
pub(crate) struct BadLine {
    /// The number of the line, from 1 on.
    pub(crate) line: u32,
    /// What is wrong with it.
    pub(crate) kind: ScriptKind,
}

impl From<TooManyLines> for BadLine {
    ghost use Rattle.step_script.specs.Parts.Readings.{bad_line_of};

    ghost from_gives = { λ many e. e ≡ bad_line_of many };

    fn from(many: TooManyLines) -> BadLine {
        BadLine {
            line: many.line,
            kind: ScriptKind::TooManyLines,
        }
    }
}

impl From<BadLine> for ScriptError {
    ghost use Rattle.step_script.specs.Parts.Readings.{bad_script};

    ghost from_gives = { λ bad e. e ≡ bad_script bad };

    fn from(bad: BadLine) -> ScriptError {
        ScriptError::Bad {
            line: bad.line,
            kind: bad.kind,
        }
    }
}

impl From<TooManyLines> for ScriptError {
    ghost use Rattle.step_script.specs.Parts.Readings.{bad_line_of, bad_script};

    ghost from_gives = { λ many e. e ≡ bad_script (bad_line_of many) };

    fn from(many: TooManyLines) -> ScriptError {
        ScriptError::from(BadLine::from(many))
    }
}
