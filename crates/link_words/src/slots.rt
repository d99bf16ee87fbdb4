//! The words that reach slots of the frame.

ghost use Rattle.std.specs.Prelude.{◌≡◌, ◌<◌, ◌^◌, ◌++◌, map, OnOk};
ghost use Rattle.a64_table.specs.Table.{word_of};
ghost use Rattle.placed_code.specs.Words.{is_near, load_slot, store_slot, page_word};

use crate::pushing::{push, push_all};
use crate::shapes::*;
use a64_instr::{Bits, Instr, Reg};
use outside::Memory;

/// How many slots have 4,096 bytes.
const PAGE: u32 = 512;

/// Whether one word reaches a slot: the first 4,096 are so near.
pub fn is_near(slot: usize) -> bool
    ensures { result ≡ is_near slot }
{
    slot < 4096
}

/// Appends the load of a register from a slot: one word, or two where the slot is far.
pub(crate) fn push_load(words: &mut Vec<u32>, to: Reg, slot: u32) -> Result<(), Memory>
    requires { slot < 2 ^ 21 }
    ensures { OnOk result (words.new.items ≡ words.old.items ++ map word_of (load_slot to slot)) }
{
    if is_near(slot as usize) {
        push(words, load(to, register(31), slot))
    } else {
        push_all(words, &[page_of(slot), load(to, register(26), slot % PAGE)])
    }
}

/// Appends the store of a register into a slot: one word, or two where the slot is far.
pub(crate) fn push_store(words: &mut Vec<u32>, from: Reg, slot: u32) -> Result<(), Memory>
    requires { slot < 2 ^ 21 }
    ensures { OnOk result (words.new.items ≡ words.old.items ++ map word_of (store_slot from slot)) }
{
    if is_near(slot as usize) {
        push(words, store(from, register(31), slot))
    } else {
        push_all(
            words,
            &[page_of(slot), store(from, register(26), slot % PAGE)],
        )
    }
}

/// X26 becomes the place of those 4,096 bytes of the frame among which a slot lies.
fn page_of(slot: u32) -> Instr
    requires { slot < 2 ^ 21 }
    ensures { result ≡ page_word slot }
{
    Instr::AddImm {
        rd: register(26),
        rn: register(31),
        imm: Bits::new(slot / PAGE),
        high: true,
    }
}
