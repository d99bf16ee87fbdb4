//! How a call ends.

ghost use Rattle.std.specs.Prelude.{◌≡◌};
ghost use Rattle.trc_answers.specs.Causes.{status_of};

use crate::places::{Position, position_of};
use a64_machine::Step;

/// A device of the outside.
#[derive(Clone, Copy, Debug)]
pub enum Device {
    Files,
    Input,
    Output,
}

/// Where a procedure's text begins: its module by its place among the files, from 0, and the line of its heading.
#[derive(Clone, Copy, Debug)]
pub struct Spot {
    pub module: u32,
    pub line: u32,
}

/// Why a call ended, in the order in which the causes are tried; want of memory can come at any time.
#[derive(Clone, Copy, Debug)]
pub enum Cause {
    /// The words are no command.
    Usage,
    /// The file isn't there; the number is that of its name among the names that the command reads, from 0.
    NoSuchFile { word: u32 },
    /// The device failed while it was read.
    ReadFault { device: Device },
    /// A rule of the language is broken: its number, 10 to 42, the module by its place among the files, from 0, and the byte.
    Source { number: u8, module: u32, at: u32 },
    /// A limit is passed: its number, 50 to 59 or 67 to 71, and the module's or the procedure's where it is one of these, else 0.
    Limit { number: u8, index: u32 },
    /// The line of a batch's list with this number, counted from 1, is the first that isn't of a line's form.
    BadLine { line: u32 },
    /// The file from which an image was to be built anew differs from that image in version 1, first at this byte.
    OtherImage { at: u32 },
    /// The file is no image: the number of the first rule that it breaks, 60 to 65, and the place of the byte.
    NotImage { number: u8, at: u32 },
    /// The file isn't notes: the number of the first rule that it breaks, 70 to 74, and the place of the byte.
    NotNotes { number: u8, at: u32 },
    /// The file of this number among those that the command reads is no object: the number of the first rule that it breaks, 80 to 84,
    /// and the place of the byte.
    NotObject { word: u32, number: u8, at: u32 },
    /// The object of this number is the first that was made by another choice than the first one.
    OtherChoice { object: u32 },
    /// A result isn't sound: the trace's number, the number of the block among the trace's, and the line, from 1; 0 where the
    /// block's beginning isn't right.
    Unsound { trace: u32, node: u32, line: u32 },
    /// The input has more than 1,048,576 bytes.
    InputTooLong,
    /// The program stopped at a trap of this kind, in the procedure at this spot, where its image says where procedures are.
    Trapped { kind: u16, spot: Option<Spot> },
    /// The machine came to what it can't do: an undefined word, a bad address or a bad call.
    MachineFault { fault: Step },
    /// All steps were made, and the program would go on.
    Spent,
    /// All turns were spent, and what the program means would go on.
    TurnsSpent,
    /// The device failed while it was written.
    WriteFault { device: Device },
    /// There was no memory.
    Memory,
    /// All was done.
    Done,
}

/// How a command ended: the cause, and where in its text a rule was broken, if one was; else a text's beginning.
#[derive(Clone, Copy)]
pub struct Ending {
    pub cause: Cause,
    pub place: Position,
}

impl Ending {
    /// A cause that stands in no text.
    pub fn of(cause: Cause) -> Ending
        ensures { result.cause ≡ cause }
    {
        Ending {
            cause,
            place: position_of(b"", 0),
        }
    }
}

/// A cause, and the status with which the program ends.
#[derive(Clone, Copy, Debug)]
pub struct Outcome {
    pub status: u8,
    pub cause: Cause,
}

/// The status of a cause.
pub fn status(cause: Cause) -> u8
    ensures { result ≡ status_of cause }
{
    match cause {
        Cause::Usage => 1,
        Cause::NoSuchFile { .. } => 4,
        Cause::ReadFault { .. } => 4,
        Cause::Source { .. } => 2,
        Cause::Limit { .. } => 3,
        Cause::BadLine { .. } => 1,
        Cause::OtherImage { .. } => 8,
        Cause::NotImage { .. } => 8,
        Cause::NotNotes { .. } => 8,
        Cause::NotObject { .. } => 8,
        Cause::OtherChoice { .. } => 8,
        Cause::Unsound { .. } => 10,
        Cause::InputTooLong => 3,
        Cause::Trapped { .. } => 6,
        Cause::MachineFault { .. } => 9,
        Cause::Spent => 7,
        Cause::TurnsSpent => 7,
        Cause::WriteFault { .. } => 4,
        Cause::Memory => 5,
        Cause::Done => 0,
    }
}
