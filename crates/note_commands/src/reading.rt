//! The files of notes and of the modules behind them are read.

ghost use Rattle.std.specs.Prelude.{◌≡◌, ◌≤◌, IfOk, IfErr};
ghost use Rattle.trc_answers.specs.Causes.{IsPlain};
ghost use Rattle.note_commands.specs.Audits.{one_behind};
ghost use Rattle.note_commands.specs.Reading.{AreNotesRead, AreNotesUnread, IsBelow};

use outside::{Files, GetFault};
use std::alloc::Global;
use trc_answers::{Cause, Device};

/// The most bytes that notes have.
pub(crate) const MOST_NOTES: u32 = 67_108_864;

/// Reads the file of notes, the first of those that the command reads; nothing where it has more than 67,108,864 bytes.
pub(crate) fn read_notes_file<F: Files>(
    alloc: Global,
    name: &str,
    files: &mut F,
) -> Result<Option<Vec<u8>>, Cause>
    ensures stays { F.held files.new ≡ F.held files.old }
    ensures rises { F.faults files.old ≤ F.faults files.new }
    ensures read { IfOk result (AreNotesRead (F.held files.old) name.now) }
    ensures fault { IfErr result (AreNotesUnread (F.held files.old) name.now (F.faults files.old) (F.faults files.new)) }
    ensures plain { IfErr result IsPlain }
{
    match files.read(alloc, name, MOST_NOTES as usize) {
        Ok(bytes) => Ok(Some(bytes)),
        Err(GetFault::TooLong) => Ok(None),
        Err(GetFault::NoSuchFile) => Err(Cause::NoSuchFile { word: 0 }),
        Err(GetFault::Failed) => Err(Cause::ReadFault {
            device: Device::Files,
        }),
        Err(GetFault::Memory) => Err(Cause::Memory),
    }
}

/// Why a module's file wasn't read, where another file is read before the modules.
pub(crate) fn one_behind(cause: Cause) -> Cause
    requires { IsBelow cause }
    ensures is { result ≡ one_behind cause }
    ensures plain { IsPlain cause → IsPlain result }
{
    match cause {
        Cause::NoSuchFile { word } => Cause::NoSuchFile { word: word + 1 },
        other => other,
    }
}
