//! Want of memory, the one answer that no clause ties to a cause.

use std::alloc::{AllocError, AllocFailed};
use thiserror::Error;

/// There was no memory for what was asked.
#[derive(Clone, Copy, Debug, Error)]
#[error("out of memory")]
pub struct Memory;

impl From<AllocError> for Memory {
    fn from(_error: AllocError) -> Self {
        Memory
    }
}

impl<T: Drop> From<AllocFailed<T>> for Memory {
    fn from(_error: AllocFailed<T>) -> Self {
        Memory
    }
}
