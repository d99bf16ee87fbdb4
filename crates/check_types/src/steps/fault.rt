//! Why a construct isn't legal.

ghost use Rattle.std.specs.Prelude.{◌≡◌};
ghost use Rattle.check_types.specs.declared.steps.fault.CheckFault.TheVariants.{Memory};

use std::alloc::{AllocError, AllocFailed};
use thiserror::Error;

/// The first rule that is broken, by its number and the byte where it is; or there was no memory.
#[derive(Clone, Copy, Debug, Error)]
pub enum CheckFault {
    /// This rule is broken at this byte.
    #[error("fault {number} at byte {at}")]
    Fault { number: u8, at: u32 },
    /// There was no memory.
    #[error("out of memory")]
    Memory,
}

impl From<AllocError> for CheckFault {
    ghost from_gives = { λ _ e. e ≡ Memory };

    fn from(_error: AllocError) -> Self {
        CheckFault::Memory
    }
}

impl<T: Drop> From<AllocFailed<T>> for CheckFault {
    ghost from_gives = { λ _ e. e ≡ Memory };

    fn from(_error: AllocFailed<T>) -> Self {
        CheckFault::Memory
    }
}
