//! Why flows have no image.

ghost use Rattle.std.specs.Prelude.{◌≡◌};
ghost use Rattle.link_plan.specs.declared.fault.LinkFault.TheVariants.{Memory as OutOfMemory};

use std::alloc::{AllocError, AllocFailed};
use thiserror::Error;

/// Why flows have no image.
#[derive(Clone, Copy, Debug, Error)]
pub enum LinkFault {
    /// The code is over 262,144 words.
    #[error("over 262144 code words")]
    Limit,
    /// A number, a register or a frame fits no instruction.
    #[error("a number, a register or a frame that no instruction has")]
    Misfit,
    /// Memory ran out.
    #[error("out of memory")]
    Memory,
}

impl From<AllocError> for LinkFault {
    ghost from_gives = { λ _ e. e ≡ OutOfMemory };

    fn from(_error: AllocError) -> Self {
        LinkFault::Memory
    }
}

impl<T: Drop> From<AllocFailed<T>> for LinkFault {
    ghost from_gives = { λ _ e. e ≡ OutOfMemory };

    fn from(_error: AllocFailed<T>) -> Self {
        LinkFault::Memory
    }
}
