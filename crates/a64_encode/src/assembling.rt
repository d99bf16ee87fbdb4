//! Two passes: where the labels stand, and the words.

ghost use Rattle.std.specs.Prelude.{◌≡◌, ℕ, ◌+◌, ◌*◌, ◌<◌, ◌≤◌, ◌^◌, [], ◌∷◌, ◌++◌, length, Some, None, OnOk, IfOk, IsSome};
ghost use Rattle.std.specs.Result.{ForErr};
ghost use Rattle.std.specs.Ordering.{nat_cmp};
ghost use Rattle.std.specs.BTreeMap.{get};
ghost use Rattle.a64_numbers.specs.Branches.{branch_field};
ghost use Rattle.a64_table.specs.Table.{word_of};
ghost use Rattle.a64_encode.specs.Assembly.{width, count, place, branch, words, Assembles, greatest};

use crate::asm::{Asm, Branch};
use crate::fault::AsmFault;
use a64_instr::{Bits, Instr};
use a64_table::encode;
use std::alloc::Global;
use std::collections::BTreeMap;

/// The most code words, 1 MiB of code: what a conditional branch reaches.
const MOST_WORDS: usize = 262_144;

/// How many words lines have.
fn count_words(lines: &[Asm]) -> usize
    ensures { result ≡ count lines.now }
{
    let mut words = 0;
    for line in lines {
        match line {
            Asm::Label(_) => {}
            _ => words += 1,
        }
    }
    words
}

/// The number of the word that follows each label.
fn places(alloc: Global, lines: &[Asm]) -> Result<BTreeMap<u32, u32>, AsmFault>
    requires { count lines.now ≤ greatest }
    ensures only { ForErr result (λ e. e ≡ AsmFault.Memory) }
    ensures places { IfOk result (λ m. (label : ℕ) → get nat_cmp m label ≡ place lines.now label) }
{
    let mut places = BTreeMap::new(alloc);
    let mut next = 0;
    for line in lines {
        match line {
            Asm::Label(label) => {
                places.insert(*label, next)?;
            }
            _ => next += 1,
        }
    }
    Ok(places)
}

/// The field of 26 bits of a branch between two words.
fn distance_26(from: u32, to: u32) -> Bits<26>
    requires from { from < greatest }
    requires to { to < greatest }
    ensures { result ≡ branch_field 26 (4 * from) (4 * to) }
{
    if from <= to {
        Bits::new(to - from)
    } else {
        Bits::new((1 << 26) - (from - to))
    }
}

/// The field of 19 bits of a branch between two words.
fn distance_19(from: u32, to: u32) -> Bits<19>
    requires from { from < greatest }
    requires to { to < greatest }
    ensures { result ≡ branch_field 19 (4 * from) (4 * to) }
{
    if from <= to {
        Bits::new(to - from)
    } else {
        Bits::new((1 << 19) - (from - to))
    }
}

/// The branch between two words.
fn branch_between(kind: Branch, from: u32, to: u32) -> Instr
    requires from { from < greatest }
    requires to { to < greatest }
    ensures { result ≡ branch kind from to }
{
    match kind {
        Branch::B => Instr::B {
            to: distance_26(from, to),
        },
        Branch::Bl => Instr::Bl {
            to: distance_26(from, to),
        },
        Branch::If(cond) => Instr::BCond {
            to: distance_19(from, to),
            cond,
        },
        Branch::Cbz(rt) => Instr::Cbz {
            rt,
            to: distance_19(from, to),
        },
        Branch::Cbnz(rt) => Instr::Cbnz {
            rt,
            to: distance_19(from, to),
        },
    }
}

/// The number of the word that a label names.
fn place_of(places: &BTreeMap<u32, u32>, label: u32) -> u32
    requires { IsSome (get nat_cmp places.now label) }
    ensures { get nat_cmp places.now label ≡ Some result }
{
    match places.get(&label) {
        Some(place) => *place,
        None => unreachable!(),
    }
}

/// Appends the word of a branch.
fn push_branch(code: &mut Vec<u32>, kind: Branch, to: u32) -> Result<(), AsmFault>
    requires from { length code.old.items < greatest }
    requires to { to < greatest }
    ensures only { ForErr result (λ e. e ≡ AsmFault.Memory) }
    ensures added { OnOk result (code.new.items ≡ code.old.items ++ word_of (branch kind (length code.old.items) to) ∷ []) }
{
    let from = code.len() as u32;
    code.push(encode(&branch_between(kind, from, to)))?;
    Ok(())
}

/// The words of lines whose labels stand at places.
fn write_words(
    alloc: Global,
    lines: &[Asm],
    places: &BTreeMap<u32, u32>,
) -> Result<Vec<u32>, AsmFault>
    requires assembles { Assembles lines.now }
    requires few { count lines.now ≤ greatest }
    requires places { (label : ℕ) → get nat_cmp places.now label ≡ place lines.now label }
    ensures only { ForErr result (λ e. e ≡ AsmFault.Memory) }
    ensures words { IfOk result (λ code. code.items ≡ words lines.now) }
    ensures counted { IfOk result (λ code. length code.items ≡ count lines.now) }
{
    let mut code = Vec::new(alloc);
    for line in lines {
        match line {
            Asm::Word(instr) => code.push(encode(instr))?,
            Asm::Label(_) => {}
            Asm::To { kind, label } => push_branch(&mut code, *kind, place_of(places, *label))?,
        }
    }
    Ok(code)
}

/// The words of lines, a word for each but labels, in order. `Limit` comes exactly where they are over
/// 262,144 words. Each label that is named has to stand somewhere, with a word behind it.
///
/// It takes time in proportion to n log n, of n lines.
pub fn assemble(alloc: Global, lines: &[Asm]) -> Result<Vec<u32>, AsmFault>
    requires { Assembles lines.now }
    ensures words { IfOk result (λ code. code.items ≡ words lines.now) }
    ensures fits { IfOk result (λ code. length code.items ≤ greatest) }
    ensures limit { ForErr result (λ e. e ≡ AsmFault.Limit → greatest < count lines.now) }
{
    if count_words(lines) > MOST_WORDS {
        return Err(AsmFault::Limit);
    }
    let places = places(alloc, lines)?;
    write_words(alloc, lines, &places)
}
