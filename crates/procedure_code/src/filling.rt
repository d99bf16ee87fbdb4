//! Filling holes.

ghost use Rattle.std.specs.Prelude.{◌≡◌, ℕ, ◌+◌, ◌-◌, ◌<◌, ◌≤◌, ◌^◌, ◌++◌, map, length};
ghost use Rattle.a64_numbers.specs.Branches.{branch_field};
ghost use Rattle.a64_machine.specs.State.{address_of};
ghost use Rattle.a64_table.specs.Table.{word_of};
ghost use Rattle.a64_instr.specs.declared.instr.Instr.TheVariants.{Bl};
ghost use Rattle.link_words.specs.Fields.{InReach};
ghost use Rattle.procedure_code.specs.Parts.{entry_at};
ghost use Rattle.procedure_code.specs.Joined.{filled_at};
ghost use Rattle.procedure_pieces.specs.Pieces.{put_in};
ghost use Rattle.procedure_pieces.specs.Claims.{AreInOrder};
ghost use Rattle.procedure_code.specs.Holes.{what_in, hole_in};

use crate::holes::{Hole, What};
use a64_instr::{Bits, Instr};
use a64_table::encode;

/// Where the procedures begin, by number, behind them where those begin that aren't there, and where the routines do.
#[derive(Clone, Copy)]
pub(crate) struct Entries<'a> {
    pub(crate) procedures: &'a [u32],
    pub(crate) routines: u32,
}

/// Fills the holes of a piece whose words stand from a word on, as the last ones.
pub(crate) fn fill(words: &mut Vec<u32>, from: u32, holes: &[Hole], entries: Entries)
    requires behind { from ≤ length words.old.items }
    requires near { length words.old.items ≤ 2 ^ 18 }
    requires within { AreInOrder 0 (length words.old.items - from) (map hole_in holes.now) }
    requires procedures { InReach entries.procedures.now }
    requires routines { entries.routines < 2 ^ 17 }
    ensures { words.new.items ≡ filled_at (entry_at entries.entry.procedures.now) entries.entry.routines from (map hole_in holes.now) words.old.items }
{
    for hole in holes {
        let at = from + hole.at;
        words[at as usize] = word_in(entries, at, hole.what);
    }
}

/// The word in a hole that stands at a word of the image.
fn word_in(entries: Entries, at: u32, what: What) -> u32
    requires at { at < 2 ^ 18 }
    requires procedures { InReach entries.procedures.now }
    requires routines { entries.routines < 2 ^ 17 }
    ensures { result ≡ word_of (put_in (entry_at entries.entry.procedures.now) entries.entry.routines at (what_in what)) }
{
    match what {
        What::Calls(procedure) => call(at, entry_of(entries.procedures, procedure)),
        What::Copies => call(at, entries.routines),
        What::Zeros => call(at, entries.routines + 15),
        What::Compares => call(at, entries.routines + 22),
        What::Lower(procedure, rd) => {
            let address = 65_536 + 4 * entry_of(entries.procedures, procedure);
            encode(&Instr::Movz {
                rd,
                imm: Bits::new(address % 65_536),
                half: Bits::new(0),
            })
        }
        What::Upper(procedure, rd) => {
            let address = 65_536 + 4 * entry_of(entries.procedures, procedure);
            encode(&Instr::Movk {
                rd,
                imm: Bits::new(address / 65_536),
                half: Bits::new(1),
            })
        }
    }
}

fn entry_of(procedures: &[u32], procedure: u32) -> u32
    requires { InReach procedures.now }
    ensures entry { result ≡ entry_at procedures.now procedure }
    ensures reach { result ≤ 2 ^ 18 }
{
    entry_at(procedures, procedure as usize)
}

/// Where a procedure begins; those that aren't there begin behind all others.
pub fn entry_at(procedures: &[u32], procedure: usize) -> u32
    ensures entry { result ≡ entry_at procedures.now procedure }
    ensures reach { InReach procedures.now → result ≤ 2 ^ 18 }
{
    let last = procedures.len().saturating_sub(1);
    match procedures.get(procedure.min(last)) {
        Some(entry) => *entry,
        None => 0,
    }
}

/// The word of a call from a word to another.
fn call(from: u32, to: u32) -> u32
    requires from { from < 2 ^ 18 }
    requires to { to ≤ 2 ^ 18 }
    ensures { result ≡ word_of (Bl (branch_field 26 (address_of from) (address_of to))) }
{
    encode(&Instr::Bl {
        to: distance(from, to),
    })
}

/// The field of a branch between two words.
fn distance(from: u32, to: u32) -> Bits<26>
    requires from { from < 2 ^ 18 }
    requires to { to ≤ 2 ^ 18 }
    ensures { result ≡ branch_field 26 (address_of from) (address_of to) }
{
    if from <= to {
        Bits::new(to - from)
    } else {
        Bits::new((1 << 26) - (from - to))
    }
}
