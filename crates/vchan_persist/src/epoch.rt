//! What an epoch comes to.
use qrexec_frame::Bytes;
use vchan_rule::Settled;

/// The answer to a client in its epoch.
#[derive(Debug, Drop)]
pub enum EpochResult {
    /// The client called, and got this.
    Answered {
        /// The exit code.
        code: i32,
        /// The output.
        stdout: Bytes,
        /// The error output.
        stderr: Bytes,
    },
    /// The client was hostile.
    Hostile,
}

/// An epoch that is over.
#[derive(Drop)]
pub struct EpochDone {
    /// Its number, from 1 on.
    pub number: u32,
    /// The answer to its client.
    pub result: EpochResult,
    /// Its page.
    pub settled: Settled,
}
