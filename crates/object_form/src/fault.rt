//! Why bytes are no object, or an object has none.

ghost use Rattle.std.specs.Prelude.{◌≡◌};
ghost use Rattle.object_form.specs.declared.fault.ObjectFault.TheVariants.{Memory};
ghost use Rattle.object_form.specs.Faults.{number_of, as_object};

use plain_form::{FormFault, FormRule};
use std::alloc::AllocError;
use thiserror::Error;

/// Why bytes are no object, or an object has none.
#[derive(Clone, Copy, Debug, Error)]
pub enum ObjectFault {
    /// The first rule that bytes break, 80 to 83, and the place of the byte at which they do: 80 where bytes are missing, at
    /// the length; 81 where the first eight aren't the mark, at 0; 82 where a policy is over 3, a builder over 1, the count of
    /// registers below 4 or over 16, the text's length over 1,048,576, a kind of line over 5, a kind of place over 2 or the number
    /// of a register over 15, at that number; 83 at the first byte too many.
    #[error("not an object: {number} at {at}")]
    Fault { number: u8, at: u32 },
    /// The object would have over 67,108,864 bytes.
    #[error("object too long")]
    Limit,
    /// Memory ran out.
    #[error("out of memory")]
    Memory,
}

// The number of a rule.
fn number_of(rule: FormRule) -> u8
    ensures { result ≡ number_of rule }
{
    match rule {
        FormRule::Missing => 80,
        FormRule::Mark => 81,
        FormRule::Range => 82,
        FormRule::Trailing => 83,
    }
}

impl From<FormFault> for ObjectFault {
    ghost from_gives = { λ fault e. e ≡ as_object fault };

    fn from(fault: FormFault) -> Self {
        match fault {
            FormFault::Broken { rule, at } => ObjectFault::Fault {
                number: number_of(rule),
                at,
            },
            FormFault::Memory => ObjectFault::Memory,
        }
    }
}

impl From<AllocError> for ObjectFault {
    ghost from_gives = { λ _ e. e ≡ Memory };

    fn from(_error: AllocError) -> Self {
        ObjectFault::Memory
    }
}
