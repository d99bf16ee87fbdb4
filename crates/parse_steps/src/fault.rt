//! Why there is no tree.

ghost use Rattle.std.specs.Prelude.{◌≡◌};
ghost use Rattle.parse_steps.specs.declared.fault.ParseFault.TheVariants.{Memory};

use std::alloc::{AllocError, AllocFailed};
use thiserror::Error;

/// Why symbols have no tree. A place is the index of a symbol, or the number of symbols where the end is meant.
#[derive(Clone, Copy, Debug, Error)]
pub enum ParseFault {
    /// No module begins with the symbols up to this one.
    #[error("syntax error at symbol {at}")]
    Syntax { at: u32 },
    /// This symbol opens the 101st construct.
    #[error("nested too deep at symbol {at}")]
    TooDeep { at: u32 },
    /// There was no memory for the tree.
    #[error("out of memory")]
    Memory,
}

impl From<AllocError> for ParseFault {
    ghost from_gives = { λ _ e. e ≡ Memory };

    fn from(_error: AllocError) -> Self {
        ParseFault::Memory
    }
}

impl<T: Drop> From<AllocFailed<T>> for ParseFault {
    ghost from_gives = { λ _ e. e ≡ Memory };

    fn from(_error: AllocFailed<T>) -> Self {
        ParseFault::Memory
    }
}
