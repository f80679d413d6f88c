//! Why bytes aren't a list of clients.
ghost use Rattle.std.specs.Prelude.{◌≡◌};

use std::alloc::AllocFailed;
use thiserror::Error;

/// What is wrong with a line of a list of clients.
#[derive(Clone, Copy, Debug, PartialEq, Eq, Error)]
pub enum ClientsKind {
    /// The line begins with neither word of a client, has another number of words, or has an empty
    /// one.
    #[error("bad line")]
    BadLine,
    /// A word isn't a number, or is a number out of range.
    #[error("bad number")]
    BadNumber,
    /// A word isn't a byte string.
    #[error("bad hex")]
    BadHex,
    /// The line is the 65,537th or has the 4,097th client, or with it the inputs have more than
    /// 8,388,608 bytes.
    #[error("too many")]
    TooMany,
}

/// Why bytes weren't read as a list of clients.
#[derive(Clone, Copy, Debug, PartialEq, Eq, Error)]
pub enum ClientsError {
    /// The first line that doesn't fit, and what is wrong with it.
    #[error("line {line}: {kind}")]
    Bad {
        /// The number of the line, from 1 on.
        line: u32,
        /// What is wrong with it.
        kind: ClientsKind,
    },
    /// Memory ran out for the list.
    #[error("out of memory")]
    Memory,
}

/// Why a line wasn't read.
#[derive(Clone, Copy, Debug, PartialEq, Eq)]
pub(crate) enum LineError {
    /// It doesn't fit.
    Bad(ClientsKind),
    /// Memory ran out for it.
    Memory,
}

impl LineError {
    ghost use Rattle.vchan_persist.specs.Reading.{error_at};

    /// Returns the error of a list whose line of this number has this error.
    pub(crate) fn at(self, line: u32) -> ClientsError
        ensures { result ≡ error_at self line }
    {
        match self {
            LineError::Bad(kind) => ClientsError::Bad { line, kind },
            LineError::Memory => ClientsError::Memory,
        }
    }
}

impl From<ClientsKind> for LineError {
    ghost use Rattle.vchan_persist.specs.declared.error.LineError.TheVariants.{Bad};

    ghost from_gives = { λ kind e. e ≡ Bad kind };

    fn from(kind: ClientsKind) -> LineError {
        LineError::Bad(kind)
    }
}

impl<T: Drop> From<AllocFailed<T>> for ClientsError {
    ghost use Rattle.vchan_persist.specs.declared.error.ClientsError.TheVariants.{Memory};

    ghost from_gives = { λ _ e. e ≡ Memory };

    fn from(_refused: AllocFailed<T>) -> ClientsError {
        ClientsError::Memory
    }
}
