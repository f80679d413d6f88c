//! What stops a call: a read or a write that failed, or memory that ran out.
use std::alloc::{AllocError, AllocFailed};
use thiserror::Error;

/// A read or a write failed; its source or sink has counted the fault.
#[derive(Clone, Copy, Debug, PartialEq, Eq, Error)]
#[error("fault of a source or a sink")]
pub struct Failed;

/// Memory ran out: an allocation was refused.
#[derive(Clone, Copy, Debug, PartialEq, Eq, Error)]
#[error("out of memory")]
pub struct Memory;

impl From<AllocError> for Memory {
    fn from(_refused: AllocError) -> Memory {
        Memory
    }
}

impl<T: Drop> From<AllocFailed<T>> for Memory {
    fn from(_refused: AllocFailed<T>) -> Memory {
        Memory
    }
}
