//! Why bytes are no notes, or results have none.

ghost use Rattle.std.specs.Prelude.{◌≡◌};
ghost use Rattle.trace_notes.specs.declared.fault.NoteFault.TheVariants.{Memory};
ghost use Rattle.trace_notes.specs.Notes.{number_of, as_note};

use plain_form::{FormFault, FormRule};
use std::alloc::AllocError;
use thiserror::Error;

/// Why bytes are no notes, or results have none.
#[derive(Clone, Copy, Debug, Error)]
pub enum NoteFault {
    /// The first rule that bytes break, 70 to 73, and the place of the byte at which they do: 70 where bytes are missing, at
    /// the length; 71 where the first eight aren't the mark, at 0; 72 where a kind of line is over 5, a kind of place over 2
    /// or the number of a register over 15, at that number; 73 at the first byte too many.
    #[error("not notes: {number} at {at}")]
    Fault { number: u8, at: u32 },
    /// The notes would have over 67,108,864 bytes.
    #[error("notes too long")]
    Limit,
    /// Memory ran out.
    #[error("out of memory")]
    Memory,
}

// The number of a rule.
fn number_of(rule: FormRule) -> u8
    ensures { result ≡ number_of rule }
{
    match rule {
        FormRule::Missing => 70,
        FormRule::Mark => 71,
        FormRule::Range => 72,
        FormRule::Trailing => 73,
    }
}

impl From<FormFault> for NoteFault {
    ghost from_gives = { λ fault e. e ≡ as_note fault };

    fn from(fault: FormFault) -> Self {
        match fault {
            FormFault::Broken { rule, at } => NoteFault::Fault {
                number: number_of(rule),
                at,
            },
            FormFault::Memory => NoteFault::Memory,
        }
    }
}

impl From<AllocError> for NoteFault {
    ghost from_gives = { λ _ e. e ≡ Memory };

    fn from(_error: AllocError) -> Self {
        NoteFault::Memory
    }
}
