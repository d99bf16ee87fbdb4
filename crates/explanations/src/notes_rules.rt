//! Rules of notes.

ghost use Rattle.std.specs.Prelude.{◌≡◌, option_map};
ghost use Rattle.explanations.specs.Entries.{plain};
ghost use Rattle.explanations.specs.NotesRules.{notes_rule_entry};

use crate::entry::{Entry, Texts, entry_with};

const SHORT: Texts = [
    "Short",
    "the file ends too early",
    "It has fewer bytes than notes of what it begins with. The place is the file's length. Below are the\nbytes, in hexadecimal.",
    "M.notes:\n    54524336\nM.Mod:\n    MODULE M; END M.",
    "$ trc audit M.img M.notes M.Mod --regs 4\ntrc: not notes: 70 at 4",
    "M.notes:\n    54524336 344E4F54 01000000 00000000 01000000 04000000 00000000 00000000\n    00000000 00000000 00000000 01000000 04000000 00000000 00000000 00000000\n    00000000 00000000 01000000 00000000 01000000 00000000",
];

const BAD_MARK: Texts = [
    "BadMark",
    "the first eight bytes aren't TRC64NOT",
    "The file is no notes that build --notes wrote. Below are the bytes, in hexadecimal.",
    "M.notes:\n    00524336 344E4F54 01000000 00000000 01000000 04000000 00000000 00000000\n    00000000 00000000 00000000 01000000 04000000 00000000 00000000 00000000\n    00000000 00000000 01000000 00000000 01000000 00000000\nM.Mod:\n    MODULE M; END M.",
    "$ trc audit M.img M.notes M.Mod --regs 4\ntrc: not notes: 71 at 0",
    "M.notes:\n    54524336 344E4F54 01000000 00000000 01000000 04000000 00000000 00000000\n    00000000 00000000 00000000 01000000 04000000 00000000 00000000 00000000\n    00000000 00000000 01000000 00000000 01000000 00000000",
];

const BAD_NUMBER: Texts = [
    "BadNumber",
    "a number is out of its range",
    "A kind of line is over 5, a kind of place over 2, or the number of a register over 15. The place is\nthat number's. Below are the bytes, in hexadecimal.",
    "M.notes:\n    54524336 344E4F54 01000000 00000000 01000000 04000000 00000000 00000000\n    00000000 00000000 00000000 01000000 04000000 00000000 00000000 00000000\n    00000000 00000000 01000000 01000000 06000000 01000000 00000000\nM.Mod:\n    MODULE M; END M.",
    "$ trc audit M.img M.notes M.Mod --regs 4\ntrc: not notes: 72 at 80",
    "M.notes:\n    54524336 344E4F54 01000000 00000000 01000000 04000000 00000000 00000000\n    00000000 00000000 00000000 01000000 04000000 00000000 00000000 00000000\n    00000000 00000000 01000000 00000000 01000000 00000000",
];

const TRAILING: Texts = [
    "Trailing",
    "bytes stand behind the notes",
    "The place is the first byte too many. Below are the bytes, in hexadecimal.",
    "M.notes:\n    54524336 344E4F54 01000000 00000000 01000000 04000000 00000000 00000000\n    00000000 00000000 00000000 01000000 04000000 00000000 00000000 00000000\n    00000000 00000000 01000000 00000000 01000000 00000000 00\nM.Mod:\n    MODULE M; END M.",
    "$ trc audit M.img M.notes M.Mod --regs 4\ntrc: not notes: 73 at 88",
    "M.notes:\n    54524336 344E4F54 01000000 00000000 01000000 04000000 00000000 00000000\n    00000000 00000000 00000000 01000000 04000000 00000000 00000000 00000000\n    00000000 00000000 01000000 00000000 01000000 00000000",
];

const TOO_LONG: Texts = [
    "TooLong",
    "the file has over 67,108,864 bytes",
    "No notes have so many. Below are the bytes, in hexadecimal; @N[ ] stands for what it holds, N times.",
    "M.notes:\n    @67108865[00]\nM.Mod:\n    MODULE M; END M.",
    "$ trc audit M.img M.notes M.Mod --regs 4\ntrc: not notes: 74 at 67108864",
    "M.notes:\n    54524336 344E4F54 01000000 00000000 01000000 04000000 00000000 00000000\n    00000000 00000000 00000000 01000000 04000000 00000000 00000000 00000000\n    00000000 00000000 01000000 00000000 01000000 00000000",
];

/// What the page of this rule of notes says, where there is one.
#[tactic(auto, unfolding(crate::specs::NotesRules::notes_rule_entry))]
pub fn notes_rule_entry(number: u8) -> Option<Entry>
    ensures { option_map plain result ≡ notes_rule_entry number }
{
    match number {
        70 => Some(entry_with(SHORT)),
        71 => Some(entry_with(BAD_MARK)),
        72 => Some(entry_with(BAD_NUMBER)),
        73 => Some(entry_with(TRAILING)),
        74 => Some(entry_with(TOO_LONG)),
        _ => None,
    }
}
