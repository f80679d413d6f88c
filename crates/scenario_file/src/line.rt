//! The lines of a scenario's calls.
use qrexec_frame::{Bytes, Text};

/// Why the broker refuses a call between honest domains.
#[derive(Clone, Copy, Debug, PartialEq, Eq)]
pub enum LineCause {
    /// No domain has the target's name.
    NoDomain,
    /// The target is the caller.
    SameDomain,
    /// No service has that name.
    NoService,
}

/// What came of a call.
#[derive(Debug, Drop)]
pub enum LineResult {
    /// The service ended.
    Done {
        /// Its exit code.
        code: i32,
        /// What it wrote on stdout.
        stdout: Bytes,
        /// What it wrote on stderr.
        stderr: Bytes,
    },
    /// The call was refused.
    Refused {
        /// Why it was refused.
        cause: LineCause,
    },
}

/// The line of a call.
#[derive(Debug, Drop)]
pub struct Line {
    /// The number of the call.
    pub number: u32,
    /// The name of the caller.
    pub from: Text,
    /// The name of the target.
    pub to: Text,
    /// The service that was asked for.
    pub service: Text,
    /// What came of the call.
    pub result: LineResult,
}
