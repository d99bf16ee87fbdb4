//! Rules of images.

ghost use Rattle.std.specs.Prelude.{◌≡◌, option_map};
ghost use Rattle.explanations.specs.Entries.{plain};
ghost use Rattle.explanations.specs.ImageRules.{image_rule_entry};

use crate::entry::{Entry, Texts, entry_with};

const SHORT: Texts = [
    "Short",
    "the file ends too early",
    "It has fewer bytes than its header, or fewer than the lengths in it ask. The place is the file's\nlength. Below are the bytes, in hexadecimal.",
    "M.img:\n    54524336",
    "$ trc exec M.img\ntrc: not an image: 60 at 4",
    "M.img:\n    54524336 34494D47 01000000 00000000 01000000 00000000 00000000 00000000 010000D4",
];

const BAD_MARK: Texts = [
    "BadMark",
    "the first eight bytes aren't TRC64IMG",
    "The file is no image that build wrote. Below are the bytes, in hexadecimal.",
    "M.img:\n    00524336 34494D47 01000000 00000000 01000000 00000000 00000000 00000000 010000D4",
    "$ trc exec M.img\ntrc: not an image: 61 at 0",
    "M.img:\n    54524336 34494D47 01000000 00000000 01000000 00000000 00000000 00000000 010000D4",
];

const BAD_VERSION: Texts = [
    "BadVersion",
    "the version isn't 1 or 2",
    "It stands at byte 8. Below are the bytes, in hexadecimal.",
    "M.img:\n    54524336 34494D47 03000000 00000000 01000000 00000000 00000000 00000000 010000D4",
    "$ trc exec M.img\ntrc: not an image: 62 at 8",
    "M.img:\n    54524336 34494D47 01000000 00000000 01000000 00000000 00000000 00000000 010000D4",
];

const BAD_LENGTH: Texts = [
    "BadLength",
    "a length is past its bound",
    "The flags are over 1, there are no code words or too many, the globals, the constants or the frame\nhave too many bytes or no multiple of 8, or there are no places or too many. The place is the\nlength's. Below are the bytes, in hexadecimal.",
    "M.img:\n    54524336 34494D47 01000000 00000000 00000000 00000000 00000000 00000000 010000D4",
    "$ trc exec M.img\ntrc: not an image: 63 at 16",
    "M.img:\n    54524336 34494D47 01000000 00000000 01000000 00000000 00000000 00000000 010000D4",
];

const TRAILING: Texts = [
    "Trailing",
    "bytes stand behind the image",
    "The file has more bytes than the lengths in its header ask. The place is the first byte too many.\nBelow are the bytes, in hexadecimal.",
    "M.img:\n    54524336 34494D47 01000000 00000000 01000000 00000000 00000000 00000000 010000D4 00",
    "$ trc exec M.img\ntrc: not an image: 64 at 36",
    "M.img:\n    54524336 34494D47 01000000 00000000 01000000 00000000 00000000 00000000 010000D4",
];

const TOO_LONG: Texts = [
    "TooLong",
    "the file has over 16,777,216 bytes",
    "No image has so many. Below are the bytes, in hexadecimal; @N[ ] stands for what it holds, N times.",
    "M.img:\n    @16777217[00]",
    "$ trc exec M.img\ntrc: not an image: 65 at 16777216",
    "M.img:\n    54524336 34494D47 01000000 00000000 01000000 00000000 00000000 00000000 010000D4",
];

const BAD_PLACE: Texts = [
    "BadPlace",
    "a procedure's place isn't where it may be",
    "Its word isn't the number of a code word, or isn't above the word of the place before it. The place\nis its first byte. Below are the bytes, in hexadecimal.",
    "M.img:\n    54524336 34494D47 02000000 00000000 01000000 00000000 00000000 00000000 01000000\n    010000D4 01000000 00000000 01000000",
    "$ trc exec M.img\ntrc: not an image: 66 at 40",
    "M.img:\n    54524336 34494D47 02000000 00000000 01000000 00000000 00000000 00000000 01000000\n    010000D4 00000000 00000000 01000000",
];

/// What the page of this rule of images says, where there is one.
#[tactic(auto, unfolding(crate::specs::ImageRules::image_rule_entry))]
pub fn image_rule_entry(number: u8) -> Option<Entry>
    ensures { option_map plain result ≡ image_rule_entry number }
{
    match number {
        60 => Some(entry_with(SHORT)),
        61 => Some(entry_with(BAD_MARK)),
        62 => Some(entry_with(BAD_VERSION)),
        63 => Some(entry_with(BAD_LENGTH)),
        64 => Some(entry_with(TRAILING)),
        65 => Some(entry_with(TOO_LONG)),
        66 => Some(entry_with(BAD_PLACE)),
        _ => None,
    }
}
