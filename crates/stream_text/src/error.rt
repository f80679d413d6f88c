//! Why an input was not decoded.
ghost use Rattle.std.specs.Prelude.{◌≡◌};

use script_words::{PushError, TooManyLines};
use std::alloc::AllocError;
use thiserror::Error;
use vchan_io::Memory;

/// What is wrong with a line of the input.
#[derive(Clone, Copy, Debug, PartialEq, Eq)]
pub enum DecodeKind {
    /// The line isn't a byte string.
    BadHex,
    /// The line is the 65,537th.
    TooManyLines,
    /// With this line, the byte strings have more than 8,388,608 bytes.
    TooManyBytes,
}

/// Why an input was not decoded.
#[derive(Clone, Copy, Debug, PartialEq, Eq, Error)]
pub enum DecodeError {
    /// The first line that doesn't fit, and what is wrong with it.
    #[error("line {line} is bad")]
    Bad {
        /// The number of the line, from 1 on.
        line: u32,
        /// What is wrong with it.
        kind: DecodeKind,
    },
    /// Memory ran out for the stream or its text.
    #[error("out of memory")]
    Memory,
}

impl From<AllocError> for DecodeError {
    ghost use Rattle.stream_text.specs.declared.error.DecodeError.TheVariants as error;

    ghost from_gives = { λ _ e. e ≡ error.Memory };

    fn from(_refused: AllocError) -> DecodeError {
        DecodeError::Memory
    }
}

impl From<Memory> for DecodeError {
    ghost use Rattle.stream_text.specs.declared.error.DecodeError.TheVariants as error;

    ghost from_gives = { λ _ e. e ≡ error.Memory };

    fn from(_refused: Memory) -> DecodeError {
        DecodeError::Memory
    }
}

impl From<TooManyLines> for DecodeError {
    ghost use Rattle.stream_text.specs.declared.error.DecodeError.TheVariants as error;
    ghost use Rattle.stream_text.specs.declared.error.DecodeKind.TheVariants as kind;

    ghost from_gives = { λ many e. e ≡ error.Bad many.line kind.TooManyLines };

    fn from(many: TooManyLines) -> DecodeError {
        DecodeError::Bad {
            line: many.line,
            kind: DecodeKind::TooManyLines,
        }
    }
}

impl DecodeError {
    ghost use Rattle.stream_text.specs.Input.{refused_at};

    /// Returns the error of the line of this number, which gave no piece.
    pub(crate) fn at(line: u32, refused: PushError) -> DecodeError
        ensures { result ≡ refused_at line refused }
    {
        match refused {
            PushError::BadHex => DecodeError::Bad {
                line,
                kind: DecodeKind::BadHex,
            },
            PushError::TooManyBytes => DecodeError::Bad {
                line,
                kind: DecodeKind::TooManyBytes,
            },
            PushError::Memory => DecodeError::Memory,
        }
    }
}
