//! Why code has no layout.

ghost use Rattle.std.specs.Prelude.{◌≡◌};
ghost use Rattle.link_layout.specs.declared.fault.LayoutFault.TheVariants.{Memory};

use std::alloc::{AllocError, AllocFailed};
use thiserror::Error;

/// Why code has no layout.
#[derive(Clone, Copy, Debug, Error)]
pub enum LayoutFault {
    /// It is over 262,144 words.
    #[error("over 262144 code words")]
    Limit,
    /// Memory ran out.
    #[error("out of memory")]
    Memory,
}

impl From<outside::Memory> for LayoutFault {
    ghost from_gives = { λ _ e. e ≡ Memory };

    fn from(_error: outside::Memory) -> Self {
        LayoutFault::Memory
    }
}

impl From<AllocError> for LayoutFault {
    ghost from_gives = { λ _ e. e ≡ Memory };

    fn from(_error: AllocError) -> Self {
        LayoutFault::Memory
    }
}

impl<T: Drop> From<AllocFailed<T>> for LayoutFault {
    ghost from_gives = { λ _ e. e ≡ Memory };

    fn from(_error: AllocFailed<T>) -> Self {
        LayoutFault::Memory
    }
}
