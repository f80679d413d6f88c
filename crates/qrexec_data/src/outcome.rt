//! What is wrong with the bytes of a call, and how a call came out.
use qrexec_frame::FrameFault;
use qrexec_hello::HelloFault;

/// What is wrong with the bytes that a side of a call got. `at` is the offset of the message's
/// first byte, counted modulo 2^64, and `kind` the number of its type.
#[derive(Clone, Copy, Debug, PartialEq, Eq)]
pub enum SessionFault {
    /// The bytes aren't messages of a data channel.
    Frame(FrameFault),
    /// The first message isn't a greeting of version 2 or above.
    Hello(HelloFault),
    /// The other side may not send such a message after its greeting.
    WrongSide { at: u64, kind: u32 },
    /// The message's stream had ended before.
    AfterEnd { at: u64, kind: u32 },
}

/// How a call came out, as one side knows it.
#[derive(Clone, Copy, Debug, PartialEq, Eq)]
pub enum Outcome {
    /// The call is over, with the service's exit code: a caller has read it; of a serving side, the
    /// last byte has gone.
    Done { code: i32 },
    /// The bytes that were got are wrong.
    Fault(SessionFault),
    /// The other side has closed the channel before the call was over.
    Closed,
    /// The other side has gone before the call was over.
    Gone,
}
