//! Rules of objects.

ghost use Rattle.std.specs.Prelude.{◌≡◌, option_map};
ghost use Rattle.explanations.specs.Entries.{plain};
ghost use Rattle.explanations.specs.ObjectRules.{object_rule_entry};

use crate::entry::{Entry, Texts, entry_with};

const SHORT: Texts = [
    "Short",
    "the file ends too early",
    "It has fewer bytes than an object of what it begins with. The place is the file's length. Below are\nthe bytes, in hexadecimal.",
    "M.obj:\n    54524336",
    "$ trc link M.img M.obj\ntrc: not an object: 80 at 4",
    "M.obj:\n    54524336 344F424A 01000000 01000000 04000000 11000000 4D4F4455 4C45204D\n    3B20454E 44204D2E 0A010000 00000000 00010000 00040000 00000000 00000000\n    00000000 00000000 00000000 00010000 00040000 00000000 00000000 00000000\n    00000000 00000000 00010000 00000000 00010000 00000000 00",
];

const BAD_MARK: Texts = [
    "BadMark",
    "the first eight bytes aren't TRC64OBJ",
    "The file is no object that object wrote. Below are the bytes, in hexadecimal.",
    "M.obj:\n    00524336 344F424A 01000000 01000000 04000000 11000000 4D4F4455 4C45204D\n    3B20454E 44204D2E 0A010000 00000000 00010000 00040000 00000000 00000000\n    00000000 00000000 00000000 00010000 00040000 00000000 00000000 00000000\n    00000000 00000000 00010000 00000000 00010000 00000000 00",
    "$ trc link M.img M.obj\ntrc: not an object: 81 at 0",
    "M.obj:\n    54524336 344F424A 01000000 01000000 04000000 11000000 4D4F4455 4C45204D\n    3B20454E 44204D2E 0A010000 00000000 00010000 00040000 00000000 00000000\n    00000000 00000000 00000000 00010000 00040000 00000000 00000000 00000000\n    00000000 00000000 00010000 00000000 00010000 00000000 00",
];

const BAD_NUMBER: Texts = [
    "BadNumber",
    "a number is out of its range",
    "A policy is over 3, a builder over 1, the number of registers isn't from 4 to 16, the text's length\nis over 1,048,576, or a number in the results is out of its range as in notes. The place is that\nnumber's. Below are the bytes, in hexadecimal.",
    "M.obj:\n    54524336 344F424A 04000000 01000000 04000000 11000000 4D4F4455 4C45204D\n    3B20454E 44204D2E 0A010000 00000000 00010000 00040000 00000000 00000000\n    00000000 00000000 00000000 00010000 00040000 00000000 00000000 00000000\n    00000000 00000000 00010000 00000000 00010000 00000000 00",
    "$ trc link M.img M.obj\ntrc: not an object: 82 at 8",
    "M.obj:\n    54524336 344F424A 01000000 01000000 04000000 11000000 4D4F4455 4C45204D\n    3B20454E 44204D2E 0A010000 00000000 00010000 00040000 00000000 00000000\n    00000000 00000000 00000000 00010000 00040000 00000000 00000000 00000000\n    00000000 00000000 00010000 00000000 00010000 00000000 00",
];

const TRAILING: Texts = [
    "Trailing",
    "bytes stand behind the object",
    "The place is the first byte too many. Below are the bytes, in hexadecimal.",
    "M.obj:\n    54524336 344F424A 01000000 01000000 04000000 11000000 4D4F4455 4C45204D\n    3B20454E 44204D2E 0A010000 00000000 00010000 00040000 00000000 00000000\n    00000000 00000000 00000000 00010000 00040000 00000000 00000000 00000000\n    00000000 00000000 00010000 00000000 00010000 00000000 0000",
    "$ trc link M.img M.obj\ntrc: not an object: 83 at 121",
    "M.obj:\n    54524336 344F424A 01000000 01000000 04000000 11000000 4D4F4455 4C45204D\n    3B20454E 44204D2E 0A010000 00000000 00010000 00040000 00000000 00000000\n    00000000 00000000 00000000 00010000 00040000 00000000 00000000 00000000\n    00000000 00000000 00010000 00000000 00010000 00000000 00",
];

const TOO_LONG: Texts = [
    "TooLong",
    "the file has over 67,108,864 bytes",
    "No object has so many. Below are the bytes, in hexadecimal; @N[ ] stands for what it holds, N times.",
    "M.obj:\n    @67108865[00]",
    "$ trc link M.img M.obj\ntrc: not an object: 84 at 67108864",
    "M.obj:\n    54524336 344F424A 01000000 01000000 04000000 11000000 4D4F4455 4C45204D\n    3B20454E 44204D2E 0A010000 00000000 00010000 00040000 00000000 00000000\n    00000000 00000000 00000000 00010000 00040000 00000000 00000000 00000000\n    00000000 00000000 00010000 00000000 00010000 00000000 00",
];

/// What the page of this rule of objects says, where there is one.
#[tactic(auto, unfolding(crate::specs::ObjectRules::object_rule_entry))]
pub fn object_rule_entry(number: u8) -> Option<Entry>
    ensures { option_map plain result ≡ object_rule_entry number }
{
    match number {
        80 => Some(entry_with(SHORT)),
        81 => Some(entry_with(BAD_MARK)),
        82 => Some(entry_with(BAD_NUMBER)),
        83 => Some(entry_with(TRAILING)),
        84 => Some(entry_with(TOO_LONG)),
        _ => None,
    }
}
