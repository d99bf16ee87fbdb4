//! Why procedures have no image.

ghost use Rattle.std.specs.Prelude.{◌≡◌};
ghost use Rattle.link_plan.specs.declared.fault.LinkFault.TheVariants as link;
ghost use Rattle.back_end.specs.declared.fault.ImageFault.TheVariants.{Traces as TooManyTraces, Code as TooMuchCode, Misfit as NotFitting, Memory as OutOfMemory};
ghost use Rattle.back_end.specs.Faults.{of_work};

use flow_allocation::WorkFault;
use link_plan::LinkFault;
use outside::Memory;
use std::alloc::{AllocError, AllocFailed};
use thiserror::Error;

/// Why procedures have no image.
#[derive(Clone, Copy, Debug, Error)]
pub enum ImageFault {
    /// There are over 262,144 traces.
    #[error("over 262144 traces")]
    Traces,
    /// The code is over 262,144 words.
    #[error("over 262144 code words")]
    Code,
    /// A number, a register or a frame fits no instruction.
    #[error("a number, a register or a frame that no instruction has")]
    Misfit,
    /// Memory ran out.
    #[error("out of memory")]
    Memory,
}

impl From<Memory> for ImageFault {
    ghost from_gives = { λ _ e. e ≡ OutOfMemory };

    fn from(_error: Memory) -> Self {
        ImageFault::Memory
    }
}

impl From<WorkFault> for ImageFault {
    ghost from_gives = { λ fault e. e ≡ of_work fault };

    fn from(fault: WorkFault) -> Self {
        match fault {
            WorkFault::Traces => ImageFault::Traces,
            WorkFault::Memory => ImageFault::Memory,
        }
    }
}

impl From<AllocError> for ImageFault {
    ghost from_gives = { λ _ e. e ≡ OutOfMemory };

    fn from(_error: AllocError) -> Self {
        ImageFault::Memory
    }
}

impl<T: Drop> From<AllocFailed<T>> for ImageFault {
    ghost from_gives = { λ _ e. e ≡ OutOfMemory };

    fn from(_error: AllocFailed<T>) -> Self {
        ImageFault::Memory
    }
}

/// The same fault of linking.
pub fn fault_of(fault: LinkFault) -> ImageFault
    ensures code { result ≡ TooMuchCode → fault ≡ link.Limit }
    ensures misfit { result ≡ NotFitting → fault ≡ link.Misfit }
    ensures traces { result ≡ TooManyTraces → ⊥ }
{
    match fault {
        LinkFault::Limit => ImageFault::Code,
        LinkFault::Misfit => ImageFault::Misfit,
        LinkFault::Memory => ImageFault::Memory,
    }
}
