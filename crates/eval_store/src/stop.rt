//! Why the meaning isn't carried on.

use outside::Memory;

/// Why a part of the meaning comes to no value.
#[derive(Clone, Copy)]
pub enum Stop {
    /// A procedure traps with a kind.
    Trapped(u16, u32),
    /// The turns are used up.
    TurnsSpent,
    /// What no program does that makes sense.
    NoSense,
    /// There was no memory, or a number that no checked program has was too large.
    NoMemory,
}

impl From<Memory> for Stop {
    ghost use Rattle.std.specs.Prelude.{◌≡◌};
    ghost use Rattle.eval_store.specs.declared.stop.Stop.TheVariants.{NoMemory};

    ghost from_gives = { λ _ e. e ≡ NoMemory };

    fn from(_error: Memory) -> Self {
        Stop::NoMemory
    }
}
