//! Why a program has no image.

ghost use Rattle.std.specs.Prelude.{◌≡◌};
ghost use Rattle.back_end.specs.declared.fault.ImageFault.TheVariants.{Misfit};
ghost use Rattle.program_image.specs.Faults.{of_lowering, of_imaging};

use back_end::ImageFault;
use ssa_tables::LowerFault;
use thiserror::Error;

/// Why a program has no image.
#[derive(Clone, Copy, PartialEq, Eq, Debug, Error)]
pub enum ProgramFault {
    /// A limit is passed: its number, and the procedure's where it is one of a procedure, else 0.
    #[error("limit {number} at {index}")]
    Limit { number: u8, index: u32 },
    /// Memory ran out.
    #[error("out of memory")]
    Memory,
}

/// A limit of the whole program.
pub fn whole_limit(number: u8) -> ProgramFault
    ensures { result ≡ Rattle.program_image.specs.Faults.whole_limit number }
{
    ProgramFault::Limit { number, index: 0 }
}

/// The same fault of lowering.
pub fn of_lowering(fault: LowerFault) -> ProgramFault
    ensures { result ≡ of_lowering fault }
{
    match fault {
        LowerFault::Limit { number, index } => ProgramFault::Limit { number, index },
        LowerFault::Memory => ProgramFault::Memory,
    }
}

/// The same fault of procedures that all fit: over 262,144 traces pass limit 57, over 262,144 words of code limit 54.
pub fn of_imaging(fault: ImageFault) -> ProgramFault
    requires { fault ≡ Misfit → ⊥ }
    ensures { result ≡ of_imaging fault }
{
    match fault {
        ImageFault::Traces => whole_limit(57),
        ImageFault::Code => whole_limit(54),
        ImageFault::Misfit => unreachable!(),
        ImageFault::Memory => ProgramFault::Memory,
    }
}
