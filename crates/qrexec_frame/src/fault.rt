use std::alloc::AllocError;

/// What is wrong with a message of a stream: the first of these that applies.
///
/// `at` is the offset of its first byte, counted modulo 2^64, `kind` the number of its type, and
/// `len` the length in its header.
#[derive(Clone, Copy, Debug, PartialEq, Eq)]
pub enum FrameFault {
    /// The channel has no such type.
    UnknownType { at: u64, kind: u32 },
    /// The length is above 65,536.
    TooLong { at: u64, kind: u32, len: u32 },
    /// The type has no body of this length.
    BadLength { at: u64, kind: u32, len: u32 },
    /// A line or a service doesn't end with NUL.
    NoNul { at: u64, kind: u32 },
}

/// Why a decoder returns no message.
#[derive(Clone, Copy, Debug, PartialEq, Eq)]
pub enum NextError {
    /// The stream is faulty at this place, and every later call answers the same.
    Fault(FrameFault),
    /// Memory ran out; the message can be asked for again.
    Memory,
}

impl From<AllocError> for NextError {
    ghost use Rattle.std.specs.Prelude.{◌≡◌};
    ghost use Rattle.qrexec_frame.specs.declared.fault.NextError.TheVariants as error;

    ghost from_gives = { λ _ e. e ≡ error.Memory };

    fn from(_refused: AllocError) -> NextError {
        NextError::Memory
    }
}
