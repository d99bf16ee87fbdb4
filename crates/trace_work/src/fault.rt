//! Why flows are no work.

ghost use Rattle.std.specs.Prelude.{◌≡◌};
ghost use Rattle.trace_work.specs.declared.fault.WorkFault.TheVariants.{Memory as OutOfMemory};

use outside::Memory;
use std::alloc::{AllocError, AllocFailed};
use thiserror::Error;

/// Why flows are no work.
#[derive(Clone, Copy, Debug, Error)]
pub enum WorkFault {
    /// There are over 262,144 traces.
    #[error("over 262144 traces")]
    Traces,
    /// Memory ran out.
    #[error("out of memory")]
    Memory,
}

impl From<Memory> for WorkFault {
    ghost from_gives = { λ _ e. e ≡ OutOfMemory };

    fn from(_error: Memory) -> Self {
        WorkFault::Memory
    }
}

impl From<AllocError> for WorkFault {
    ghost from_gives = { λ _ e. e ≡ OutOfMemory };

    fn from(_error: AllocError) -> Self {
        WorkFault::Memory
    }
}

impl<T: Drop> From<AllocFailed<T>> for WorkFault {
    ghost from_gives = { λ _ e. e ≡ OutOfMemory };

    fn from(_error: AllocFailed<T>) -> Self {
        WorkFault::Memory
    }
}
