//! Which end each session of an agent has.
use service_gate::Builtin;
use std::snapshot::Snapshot;

/// The session of a call of the agent's own.
#[derive(Drop)]
pub(crate) struct CallNote {
    /// Which of the ends it has.
    pub(crate) at: usize,
    pub(crate) to: u32,
    pub(crate) port: u32,
    pub(crate) input: Snapshot<Vec<u8>>,
}

/// A session in which the agent serves.
#[derive(Drop)]
pub(crate) struct ServedNote {
    /// Which of the ends it has.
    pub(crate) at: usize,
    pub(crate) from: u32,
    pub(crate) port: u32,
    pub(crate) service: Snapshot<Builtin>,
}
