//! Why texts have no image.

ghost use Rattle.std.specs.Prelude.{◌≡◌};
ghost use Rattle.source_image.specs.Refusals.{of_source, of_program};

use program_image::ProgramFault;
use source_program::SourceFault;
use thiserror::Error;

/// Why the texts of some modules have no image.
#[derive(Clone, Copy, Debug, Error)]
pub enum Refusal {
    /// The text of this module has over 1,048,576 bytes.
    #[error("module {module} has over 1048576 bytes")]
    TooLong { module: usize },
    /// The first rule that is broken, in this module, at this byte.
    #[error("rule {number} is broken in module {module} at byte {at}")]
    Source { module: usize, number: u8, at: u32 },
    /// A limit is passed: its number, and the procedure's where it is one of a procedure, else 0.
    #[error("limit {number} at {index}")]
    Limit { number: u8, index: u32 },
    /// Memory ran out.
    #[error("out of memory")]
    Memory,
}

/// The same fault of texts.
pub fn refused_source(fault: SourceFault) -> Refusal
    ensures { result ≡ of_source fault }
{
    match fault {
        SourceFault::TooLong { module } => Refusal::TooLong { module },
        SourceFault::Fault { module, number, at } => Refusal::Source { module, number, at },
        SourceFault::Memory => Refusal::Memory,
    }
}

/// The same fault of a program.
pub fn refused_program(fault: ProgramFault) -> Refusal
    ensures { result ≡ of_program fault }
{
    match fault {
        ProgramFault::Limit { number, index } => Refusal::Limit { number, index },
        ProgramFault::Memory => Refusal::Memory,
    }
}
