//! Why texts are no program.

ghost use Rattle.std.specs.Prelude.{◌≡◌};
ghost use Rattle.source_program.specs.Faults.{read_fault, judged_fault};

use check_types::steps::CheckFault;
use ob_read::TextFault;
use thiserror::Error;

/// Why the texts of some modules are no program.
#[derive(Clone, Copy, Debug, Drop, Error)]
pub enum SourceFault {
    /// The text of this module has over 1,048,576 bytes.
    #[error("module {module} has over 1048576 bytes")]
    TooLong { module: usize },
    /// The first rule that is broken, in this module, at this byte. Rules 10 to 14 are those of symbols, 20 and 21 those of the
    /// grammar, 30 to 42 those of the language.
    #[error("rule {number} is broken in module {module} at byte {at}")]
    Fault { module: usize, number: u8, at: u32 },
    /// There was no memory.
    #[error("out of memory")]
    Memory,
}

/// What a fault of reading a module's text is.
pub(crate) fn of_reading(index: usize, fault: TextFault) -> SourceFault
    ensures { result ≡ read_fault index fault }
{
    match fault {
        TextFault::TooLong => SourceFault::TooLong { module: index },
        TextFault::Fault { number, at } => SourceFault::Fault {
            module: index,
            number,
            at,
        },
        TextFault::Memory => SourceFault::Memory,
    }
}

/// What a fault of judging a module is.
pub(crate) fn of_judging(index: usize, fault: CheckFault) -> SourceFault
    ensures { result ≡ judged_fault index fault }
{
    match fault {
        CheckFault::Fault { number, at } => SourceFault::Fault {
            module: index,
            number,
            at,
        },
        CheckFault::Memory => SourceFault::Memory,
    }
}
