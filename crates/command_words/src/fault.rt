//! Why words are refused.

ghost use Rattle.std.specs.Prelude.{◌≡◌};
ghost use Rattle.command_words.specs.Taking.{FollowsFrom};
ghost use Rattle.command_words.specs.declared.fault.WordsFault.TheVariants.{Memory};

use clap::Error;
use clap::error::ErrorKind;
use std::alloc::{AllocError, AllocFailed};
use thiserror::Error as ErrorOf;

/// Why words aren't read.
#[derive(Clone, Copy, Debug, ErrorOf)]
pub enum WordsFault {
    /// They are no command, a command refuses them, or a value isn't in its table.
    #[error("usage")]
    Usage,
    /// Memory ran out.
    #[error("out of memory")]
    Memory,
}

impl From<AllocError> for WordsFault {
    ghost from_gives = { λ _ e. e ≡ Memory };

    fn from(_error: AllocError) -> Self {
        WordsFault::Memory
    }
}

impl<T: Drop> From<AllocFailed<T>> for WordsFault {
    ghost from_gives = { λ _ e. e ≡ Memory };

    fn from(_error: AllocFailed<T>) -> Self {
        WordsFault::Memory
    }
}

/// Why words aren't read of which `clap` says this.
pub(crate) fn fault(error: &Error) -> WordsFault
    ensures { FollowsFrom error.now result }
{
    match error.kind() {
        ErrorKind::OutOfMemory => WordsFault::Memory,
        _ => WordsFault::Usage,
    }
}
