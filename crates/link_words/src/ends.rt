//! The words of copies and of ends.

ghost use Rattle.std.specs.Prelude.{◌≡◌, ℕ, ◌+◌, ◌<◌, ◌≤◌, ◌^◌, ◌==◌, suc, [], ◌∷◌, ◌++◌, map, length, OnOk};
ghost use Rattle.a64_table.specs.Table.{word_of};
ghost use Rattle.a64_numbers.specs.Branches.{branch_field};
ghost use Rattle.a64_machine.specs.State.{address_of};
ghost use Rattle.placed_code.specs.Words.{move, turned, jump_words, branch_words, nonzero_words};
ghost use Rattle.placed_code.specs.Words as place;
ghost use Rattle.placed_code.specs.Layout.{jump_width};
ghost use Rattle.link_words.specs.Fields.{InReach, entry_in};
ghost use Rattle.link_words.specs.Frames.{FrameFits, WhereFits, width_of_ways, width_of_end, last_of, where_of};

use crate::frames::{Frame, push_epilogue};
use crate::operations::{condition, entry_of};
use crate::pushing::{push, push_all};
use crate::shapes::*;
use crate::slots::{push_load, push_store};
use a64_instr::{Bits, Cond, Instr, Reg};
use a64_numbers::opposite;
use block_runs::End;
use outside::Memory;

/// Where a copy takes its value from or puts it: a register, or a slot of the frame.
#[derive(Clone, Copy)]
pub enum Where {
    InReg(u8),
    InSlot(u32),
}

/// Appends the words of a copy.
pub fn push_copy(words: &mut Vec<u32>, to: Where, from: Where) -> Result<(), Memory>
    requires to { WhereFits to }
    requires from { WhereFits from }
    ensures { OnOk result (words.new.items ≡ words.old.items ++ map word_of (move (where_of to) (where_of from))) }
{
    match to {
        Where::InReg(number) => push_into(words, register(u32::from(number)), from),
        Where::InSlot(slot) => push_out(words, slot, from),
    }
}

fn push_into(words: &mut Vec<u32>, to: Reg, from: Where) -> Result<(), Memory>
    requires from { WhereFits from }
    ensures { OnOk result (words.new.items ≡ words.old.items ++ map word_of (move (place.InReg to) (where_of from))) }
{
    match from {
        Where::InReg(number) => push(words, moved(to, register(u32::from(number)))),
        Where::InSlot(slot) => push_load(words, to, slot),
    }
}

fn push_out(words: &mut Vec<u32>, to: u32, from: Where) -> Result<(), Memory>
    requires to { to < 2 ^ 21 }
    requires from { WhereFits from }
    ensures { OnOk result (words.new.items ≡ words.old.items ++ map word_of (move (place.InSlot to) (where_of from))) }
{
    let between = register(17);
    match from {
        Where::InReg(number) => push_store(words, register(u32::from(number)), to),
        Where::InSlot(slot) => {
            push_load(words, between, slot)?;
            push_store(words, between, to)
        }
    }
}

/// The field of a conditional branch between two words.
fn near_distance(from: u32, to: u32) -> Bits<19>
    requires from { from < 2 ^ 18 }
    requires to { to ≤ 2 ^ 18 }
    ensures { result ≡ branch_field 19 (address_of from) (address_of to) }
{
    if from <= to {
        Bits::new(to - from)
    } else {
        Bits::new((1 << 19) - (from - to))
    }
}

/// Appends a jump to a word, where that word doesn't fall next.
fn push_jump(words: &mut Vec<u32>, falls: bool, to: u32) -> Result<(), Memory>
    requires to { to ≤ 2 ^ 18 }
    requires near { length words.old.items + jump_width falls ≤ 2 ^ 18 }
    ensures { OnOk result (words.new.items ≡ words.old.items ++ map word_of (jump_words falls (length words.old.items) to)) }
{
    if falls {
        return Ok(());
    }
    let from = words.len() as u32;
    push(
        words,
        Instr::B {
            to: distance(from, to),
        },
    )
}

/// Two words, and which of them falls next.
#[derive(Clone, Copy)]
struct Ways {
    one: u32,
    other: u32,
    turned: bool,
    falls: bool,
}

/// Appends a comparison of two registers and a branch by a condition.
fn push_branch(words: &mut Vec<u32>, compared: Instr, cond: Cond, ways: Ways) -> Result<(), Memory>
    requires one { ways.one ≤ 2 ^ 18 }
    requires other { ways.other ≤ 2 ^ 18 }
    requires near { length words.old.items + 1 + width_of_ways ways.turned ways.falls ≤ 2 ^ 18 }
    ensures { OnOk result (words.new.items ≡ words.old.items ++ map word_of
        (compared ∷ branch_words ways.turned ways.falls (suc (length words.old.items)) cond ways.one ways.other)) }
{
    let from = words.len() as u32 + 1;
    if ways.turned {
        let to = near_distance(from, ways.other);
        return push_all(
            words,
            &[
                compared,
                Instr::BCond {
                    to,
                    cond: opposite(cond),
                },
            ],
        );
    }
    let to = near_distance(from, ways.one);
    let tested = Instr::BCond { to, cond };
    if ways.falls {
        return push_all(words, &[compared, tested]);
    }
    let to = distance(from + 1, ways.other);
    push_all(words, &[compared, tested, Instr::B { to }])
}

/// Appends a branch by whether a register is 0.
fn push_nonzero(words: &mut Vec<u32>, rt: Reg, ways: Ways) -> Result<(), Memory>
    requires one { ways.one ≤ 2 ^ 18 }
    requires other { ways.other ≤ 2 ^ 18 }
    requires near { length words.old.items + width_of_ways ways.turned ways.falls ≤ 2 ^ 18 }
    ensures { OnOk result (words.new.items ≡ words.old.items ++ map word_of (nonzero_words ways.turned ways.falls (length words.old.items) rt ways.one ways.other)) }
{
    let from = words.len() as u32;
    if ways.turned {
        let to = near_distance(from, ways.other);
        return push(words, Instr::Cbz { rt, to });
    }
    let to = near_distance(from, ways.one);
    push(words, Instr::Cbnz { rt, to })?;
    push_jump(words, ways.falls, ways.other)
}

/// Appends the words of an end: where the blocks of its procedure begin is given, and which of them falls next. The words of a
/// branch must lie within 262,144.
pub fn push_end(
    words: &mut Vec<u32>,
    frame: Frame,
    blocks: &[u32],
    next: u32,
    end: &End,
    a: Reg,
    b: Reg,
) -> Result<(), Memory>
    requires frame { FrameFits frame }
    requires blocks { InReach blocks.now }
    requires near { length words.old.items + width_of_end next end.now ≤ 2 ^ 18 }
    ensures { OnOk result (words.new.items ≡ words.old.items ++ map word_of (last_of next (entry_in blocks.now) frame (length words.old.items) end.now a b)) }
{
    match end {
        End::Return(value) => {
            if value.is_some() {
                push(words, moved(register(0), a))?;
            }
            push_epilogue(words, frame)
        }
        End::Jump { to, .. } => push_jump(words, *to == next, entry_of(blocks, *to)),
        End::Branch { cond, yes, no, .. } => {
            let ways = two_ways(blocks, next, *yes, *no);
            push_branch(words, against(a, b), condition(*cond), ways)
        }
        End::Nonzero { yes, no, .. } => push_nonzero(words, a, two_ways(blocks, next, *yes, *no)),
        End::Trap(kind) => push(words, brk(u32::from(*kind))),
    }
}

/// Where a test of two blocks leads.
fn two_ways(blocks: &[u32], next: u32, one: u32, other: u32) -> Ways
    ensures one { result.one ≡ entry_in blocks.now one }
    ensures other { result.other ≡ entry_in blocks.now other }
    ensures turned { result.turned ≡ turned next one other }
    ensures falls { result.falls ≡ (other == next) }
{
    Ways {
        one: entry_of(blocks, one),
        other: entry_of(blocks, other),
        turned: one == next && other != next,
        falls: other == next,
    }
}
