//! What an agent reports: of a session when that is over, and of all when it is done.
use qrexec_data::{Outcome, SessionFault};
use qrexec_frame::Bytes;

/// The end of a session, as MSG_CONNECTION_TERMINATED reports it to the broker.
#[derive(Clone, Copy, Debug, PartialEq, Eq)]
pub struct SessionEnd {
    /// The domain at the other end.
    pub domain: u32,
    /// The port of the session.
    pub port: u32,
    /// Which of the agent's own calls it is, counted from 0, or `None` if the agent served it.
    pub call: Option<usize>,
}

/// What came of a call of an agent's own.
#[derive(Debug, Drop)]
pub enum CallEnd {
    /// The call was accepted, and its session is over.
    Session {
        /// The port of the session.
        port: u32,
        /// The domain that served it.
        to: u32,
        /// How the session came out.
        outcome: Outcome,
        /// What was read of the output.
        stdout: Bytes,
        /// What was read of the error output.
        stderr: Bytes,
        /// All bytes that were got.
        got: Bytes,
    },
    /// The broker refused the call.
    Refused,
    /// The control channel ended before the call was answered.
    Unanswered,
}

/// A call of an agent's own, and what came of it.
#[derive(Debug, Drop)]
pub struct CallDone {
    /// The number of the call.
    pub number: u32,
    /// What came of it.
    pub end: CallEnd,
}

/// What a caller has of a session that is over.
#[derive(Debug, Drop)]
pub struct CallerDone {
    /// How the session came out.
    pub outcome: Outcome,
    /// What was read of the output.
    pub stdout: Bytes,
    /// What was read of the error output.
    pub stderr: Bytes,
    /// All bytes that were got.
    pub got: Bytes,
}

/// A session in which an agent served.
#[derive(Debug, Drop)]
pub struct ServedDone {
    /// The domain that called.
    pub from: u32,
    /// The port of the session.
    pub port: u32,
    /// How the session came out.
    pub outcome: Outcome,
    /// All bytes that were got.
    pub got: Bytes,
}

/// How a control channel came to its end.
#[derive(Clone, Copy, Debug, PartialEq, Eq)]
pub enum ControlEnd {
    /// The broker has shut it, and all of it was read.
    Drained,
    /// The broker has gone.
    Gone,
    /// What the broker sent is wrong.
    Fault(SessionFault),
}
