//! Why lines have no words.

ghost use Rattle.std.specs.Prelude.{◌≡◌};
ghost use Rattle.a64_encode.specs.declared.fault.AsmFault.TheVariants.{Memory};

use std::alloc::{AllocError, AllocFailed};
use thiserror::Error;

/// Why lines have no words.
#[derive(Clone, Copy, Debug, Error)]
pub enum AsmFault {
    /// They are over 262,144 words.
    #[error("over 262144 code words")]
    Limit,
    /// Memory ran out.
    #[error("out of memory")]
    Memory,
}

impl From<AllocError> for AsmFault {
    ghost from_gives = { λ _ e. e ≡ Memory };

    fn from(_error: AllocError) -> Self {
        AsmFault::Memory
    }
}

impl<T: Drop> From<AllocFailed<T>> for AsmFault {
    ghost from_gives = { λ _ e. e ≡ Memory };

    fn from(_error: AllocFailed<T>) -> Self {
        AsmFault::Memory
    }
}
