//! Procedures in blocks of cells.

ghost use Rattle.std.specs.Prelude.{◌≡◌, ◌+◌, ◌<◌, ◌≤◌, ◌^◌, IsTrue, length};
ghost use Rattle.size_limits.specs.Limits.{most_slots};
ghost use Rattle.link_blocks.specs.Fits.{number_fits, most_outs};

use a64_instr::Reg;
use items::Items;
use link_layout::{Copy, Ranks};
use link_words::{Frame, Registers};
use lir_core::{Leave, Template};

/// An operation, its registers, and the copies before it.
#[derive(Drop)]
pub struct Cell {
    pub copies: Items<Copy>,
    pub code: Template,
    pub registers: Registers,
    ghost fits: { IsTrue (number_fits code) },
}

/// A block: its cells, the copies before its end, how it ends (a jump's arguments are left out), and the registers in which
/// the end reads.
#[derive(Drop)]
pub struct Block {
    pub cells: Items<Cell>,
    pub copies: Items<Copy>,
    pub end: Leave,
    pub a: Reg,
    pub b: Reg,
}

/// A procedure: its frame, the values with a home, the copies at its entry, its blocks by number, and their numbers in the
/// order of their code. A frame has at most 8,192 slots, as an image's may.
#[derive(Drop)]
pub struct Plan {
    pub frame: Frame,
    pub homes: Ranks,
    pub first: Items<Copy>,
    pub blocks: Items<Block>,
    pub order: Items<u32>,
    ghost slots: { frame.slots ≡ frame.outs + (1 + length homes) },
    ghost few_slots: { frame.slots ≤ most_slots },
    ghost few_outs: { frame.outs ≤ most_outs },
    ghost few_bytes: { frame.bytes < 2 ^ 24 },
    ghost few_blocks: { length blocks < 2 ^ 32 },
}
