//! Kinds of numbers.

ghost use Rattle.std.specs.Prelude.{◌≡◌, option_map};
ghost use Rattle.explanations.specs.Entries.{kind_word, plain};
ghost use Rattle.explanations.specs.Explained.{entry_of};

use crate::entry::Entry;
use crate::faults::fault_entry;
use crate::image_rules::image_rule_entry;
use crate::limits::limit_entry;
use crate::notes_rules::notes_rule_entry;
use crate::object_rules::object_rule_entry;
use crate::traps::trap_entry;

/// What a number is one of; numbers of several kinds may be equal.
#[derive(Clone, Copy, Debug)]
pub enum Kind {
    /// A fault of a module.
    Fault,
    /// A limit of a program or a list.
    Limit,
    /// A trap of a run.
    Trap,
    /// A rule of images that a file breaks.
    ImageRule,
    /// A rule of notes that a file breaks.
    NotesRule,
    /// A rule of objects that a file breaks.
    ObjectRule,
}

/// The kinds and numbers of all pages, in the order in which they are listed.
pub const PAGES: [(Kind, u8); 64] = [
    (Kind::Fault, 10),
    (Kind::Fault, 11),
    (Kind::Fault, 12),
    (Kind::Fault, 13),
    (Kind::Fault, 14),
    (Kind::Fault, 20),
    (Kind::Fault, 21),
    (Kind::Fault, 30),
    (Kind::Fault, 31),
    (Kind::Fault, 32),
    (Kind::Fault, 33),
    (Kind::Fault, 34),
    (Kind::Fault, 35),
    (Kind::Fault, 36),
    (Kind::Fault, 37),
    (Kind::Fault, 38),
    (Kind::Fault, 39),
    (Kind::Fault, 40),
    (Kind::Fault, 41),
    (Kind::Fault, 42),
    (Kind::Limit, 50),
    (Kind::Limit, 51),
    (Kind::Limit, 52),
    (Kind::Limit, 53),
    (Kind::Limit, 54),
    (Kind::Limit, 55),
    (Kind::Limit, 56),
    (Kind::Limit, 57),
    (Kind::Limit, 58),
    (Kind::Limit, 59),
    (Kind::Limit, 67),
    (Kind::Limit, 68),
    (Kind::Limit, 69),
    (Kind::Limit, 70),
    (Kind::Limit, 71),
    (Kind::Trap, 1),
    (Kind::Trap, 2),
    (Kind::Trap, 3),
    (Kind::Trap, 4),
    (Kind::Trap, 5),
    (Kind::Trap, 6),
    (Kind::Trap, 7),
    (Kind::Trap, 8),
    (Kind::Trap, 9),
    (Kind::Trap, 10),
    (Kind::Trap, 11),
    (Kind::Trap, 12),
    (Kind::ImageRule, 60),
    (Kind::ImageRule, 61),
    (Kind::ImageRule, 62),
    (Kind::ImageRule, 63),
    (Kind::ImageRule, 64),
    (Kind::ImageRule, 65),
    (Kind::ImageRule, 66),
    (Kind::NotesRule, 70),
    (Kind::NotesRule, 71),
    (Kind::NotesRule, 72),
    (Kind::NotesRule, 73),
    (Kind::NotesRule, 74),
    (Kind::ObjectRule, 80),
    (Kind::ObjectRule, 81),
    (Kind::ObjectRule, 82),
    (Kind::ObjectRule, 83),
    (Kind::ObjectRule, 84),
];

/// How a kind is called.
pub(crate) fn kind_word(kind: Kind) -> &'static str
    ensures { result.now ≡ kind_word kind }
{
    match kind {
        Kind::Fault => "fault",
        Kind::Limit => "limit",
        Kind::Trap => "trap",
        Kind::ImageRule => "image rule",
        Kind::NotesRule => "notes rule",
        Kind::ObjectRule => "object rule",
    }
}

/// What the page of this kind and number says, where there is one.
pub fn entry_of(kind: Kind, number: u8) -> Option<Entry>
    ensures { option_map plain result ≡ entry_of kind number }
{
    match kind {
        Kind::Fault => fault_entry(number),
        Kind::Limit => limit_entry(number),
        Kind::Trap => trap_entry(number),
        Kind::ImageRule => image_rule_entry(number),
        Kind::NotesRule => notes_rule_entry(number),
        Kind::ObjectRule => object_rule_entry(number),
    }
}
