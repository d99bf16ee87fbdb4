//! Why bytes have not the form.

ghost use Rattle.std.specs.Prelude.{◌≡◌};
ghost use Rattle.plain_form.specs.declared.fault.FormFault.TheVariants.{Memory};

use std::alloc::{AllocError, AllocFailed};
use thiserror::Error;

/// A rule that bytes break, and where that is told.
#[derive(Clone, Copy, PartialEq, Eq, Debug)]
pub enum FormRule {
    /// Bytes are missing; told at the length.
    Missing,
    /// The first bytes are not the mark; told at 0.
    Mark,
    /// A number is greater than may stand there; told at that number.
    Range,
    /// There are bytes behind the last part; told at the first of these.
    Trailing,
}

/// Why bytes have not the form.
#[derive(Clone, Copy, Debug, Error)]
pub enum FormFault {
    /// The first rule that they break, and the place.
    #[error("not in form at {at}")]
    Broken { rule: FormRule, at: u32 },
    /// Memory ran out.
    #[error("out of memory")]
    Memory,
}

impl From<AllocError> for FormFault {
    ghost from_gives = { λ _ e. e ≡ Memory };

    fn from(_error: AllocError) -> Self {
        FormFault::Memory
    }
}

impl<T: Drop> From<AllocFailed<T>> for FormFault {
    ghost from_gives = { λ _ e. e ≡ Memory };

    fn from(_error: AllocFailed<T>) -> Self {
        FormFault::Memory
    }
}
