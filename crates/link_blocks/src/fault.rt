//! Why a procedure has no plan.

ghost use Rattle.std.specs.Prelude.{◌≡◌};
ghost use Rattle.link_blocks.specs.declared.fault.PlanFault.TheVariants.{Memory as OutOfMemory};

use outside::Memory;
use std::alloc::{AllocError, AllocFailed};
use thiserror::Error;

/// Why a procedure has no plan.
#[derive(Clone, Copy, Debug, Error)]
pub enum PlanFault {
    /// A number, a register or a frame fits no instruction.
    #[error("a number, a register or a frame that no instruction has")]
    Misfit,
    /// Memory ran out.
    #[error("out of memory")]
    Memory,
}

impl From<Memory> for PlanFault {
    ghost from_gives = { λ _ e. e ≡ OutOfMemory };

    fn from(_error: Memory) -> Self {
        PlanFault::Memory
    }
}

impl From<AllocError> for PlanFault {
    ghost from_gives = { λ _ e. e ≡ OutOfMemory };

    fn from(_error: AllocError) -> Self {
        PlanFault::Memory
    }
}

impl<T: Drop> From<AllocFailed<T>> for PlanFault {
    ghost from_gives = { λ _ e. e ≡ OutOfMemory };

    fn from(_error: AllocFailed<T>) -> Self {
        PlanFault::Memory
    }
}
