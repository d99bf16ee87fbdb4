//! Lines.

use a64_instr::{Cond, Instr, Reg};

/// A branch whose target is a label.
#[derive(Clone, Copy)]
pub enum Branch {
    /// B.
    B,
    /// BL.
    Bl,
    /// B.cond.
    If(Cond),
    /// CBZ.
    Cbz(Reg),
    /// CBNZ.
    Cbnz(Reg),
}

/// A line: a word, or a name for the word that follows.
#[derive(Clone, Copy)]
pub enum Asm {
    /// The word of an instruction.
    Word(Instr),
    /// The name of the word that follows. It has no word of its own.
    Label(u32),
    /// A branch to the word that a label names.
    To { kind: Branch, label: u32 },
}
