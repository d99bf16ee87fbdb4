//! Why a plan has no image.

ghost use Rattle.std.specs.Prelude.{◌≡◌};
ghost use Rattle.planned_image.specs.Faults.{of_placing};
ghost use Rattle.planned_image.specs.declared.fault.AuditFault.TheVariants.{Memory as OutOfMemory};

use outside::Memory;
use placed_image::PlacingFault;
use thiserror::Error;

/// Why there is no image from results that come from elsewhere.
#[derive(Clone, Copy, PartialEq, Eq, Debug, Error)]
pub enum AuditFault {
    /// The first failure of the results: the number of a trace, the place of a node in it, and a line of the node.
    #[error("unsound {trace} {node} {line}")]
    Unsound { trace: u32, node: u32, line: u32 },
    /// The code is over 262,144 words: limit 54.
    #[error("over 262144 code words")]
    Code,
    /// Memory ran out.
    #[error("out of memory")]
    Memory,
}

impl From<Memory> for AuditFault {
    ghost from_gives = { λ _ e. e ≡ OutOfMemory };

    fn from(_error: Memory) -> Self {
        AuditFault::Memory
    }
}

impl From<PlacingFault> for AuditFault {
    ghost from_gives = { λ fault e. e ≡ of_placing fault };

    fn from(fault: PlacingFault) -> Self {
        match fault {
            PlacingFault::Code => AuditFault::Code,
            PlacingFault::Memory => AuditFault::Memory,
        }
    }
}
