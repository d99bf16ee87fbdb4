//! Why objects aren't joined.

ghost use Rattle.std.specs.Prelude.{◌≡◌};
ghost use Rattle.obj_link.specs.declared.fault.JoinFault.TheVariants.{Memory as OutOfMemory};

use outside::Memory;
use thiserror::Error;

/// Why objects aren't joined.
#[derive(Clone, Copy, PartialEq, Eq, Debug, Error)]
pub enum JoinFault {
    /// The first object whose policy, builder or number of registers isn't the first object's.
    #[error("other choice at {object}")]
    OtherChoice { object: u32 },
    /// Memory ran out.
    #[error("out of memory")]
    Memory,
}

impl From<Memory> for JoinFault {
    ghost from_gives = { λ _ e. e ≡ OutOfMemory };

    fn from(_error: Memory) -> Self {
        JoinFault::Memory
    }
}
