//! Why results that can be placed have no image.

ghost use Rattle.std.specs.Prelude.{◌≡◌};
ghost use Rattle.placed_image.specs.declared.fault.PlacingFault.TheVariants.{Memory as OutOfMemory};

use outside::Memory;
use thiserror::Error;

/// Why results that can be placed have no image.
#[derive(Clone, Copy, Debug, Error)]
pub enum PlacingFault {
    /// The code is over 262,144 words.
    #[error("over 262144 code words")]
    Code,
    /// Memory ran out.
    #[error("out of memory")]
    Memory,
}

impl From<Memory> for PlacingFault {
    ghost from_gives = { λ _ e. e ≡ OutOfMemory };

    fn from(_error: Memory) -> Self {
        PlacingFault::Memory
    }
}
