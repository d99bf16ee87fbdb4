//! The fields of a word, each read at its place.

ghost use Rattle.std.specs.Prelude.{◌≡◌, ◌==◌};
ghost use Rattle.a64_table.specs.Table.{Rd, Rn, Rm, Ra, Imm12, Sh, Imm6, ShiftType, Imm16, Hw, Imm19, Imm26, SelectCond, BranchCond};
ghost use Rattle.a64_table.specs.Decode.{bits, shift_of, cond_of};

use a64_instr::{Bits, Cond, Reg, Shift};

/// Bits 4:0, the register that is written or stored.
pub fn rd(word: u32) -> Reg
    ensures { result ≡ bits word Rd }
{
    Bits::new(word & 0x1F)
}

/// Bits 9:5, the first operand, or the address.
pub fn rn(word: u32) -> Reg
    ensures { result ≡ bits word Rn }
{
    Bits::new((word >> 5) & 0x1F)
}

/// Bits 20:16, the second operand.
pub fn rm(word: u32) -> Reg
    ensures { result ≡ bits word Rm }
{
    Bits::new((word >> 16) & 0x1F)
}

/// Bits 14:10, what a product is added to or taken from.
pub fn ra(word: u32) -> Reg
    ensures { result ≡ bits word Ra }
{
    Bits::new((word >> 10) & 0x1F)
}

/// Bits 21:10, an operand or an offset.
pub fn imm12(word: u32) -> Bits<12>
    ensures { result ≡ bits word Imm12 }
{
    Bits::new((word >> 10) & 0xFFF)
}

/// Bit 22, whether the 12 bits count 4096s.
pub fn sh(word: u32) -> bool
    ensures { result ≡ (bits word Sh == 1) }
{
    (word >> 22) & 1 == 1
}

/// Bits 15:10, by how much the second operand is shifted.
pub fn imm6(word: u32) -> Bits<6>
    ensures { result ≡ bits word Imm6 }
{
    Bits::new((word >> 10) & 0x3F)
}

/// Bits 23:22, how the second operand is shifted.
pub fn shift(word: u32) -> Shift
    ensures { result ≡ shift_of (bits word ShiftType) }
{
    shift_type((word >> 22) & 3)
}

/// Bits 20:5, a number of 16 bits.
pub fn imm16(word: u32) -> Bits<16>
    ensures { result ≡ bits word Imm16 }
{
    Bits::new((word >> 5) & 0xFFFF)
}

/// Bits 22:21, which half word of the register the 16 bits are.
pub fn hw(word: u32) -> Bits<2>
    ensures { result ≡ bits word Hw }
{
    Bits::new((word >> 21) & 3)
}

/// Bits 23:5, how far a conditional branch goes, in words.
pub fn imm19(word: u32) -> Bits<19>
    ensures { result ≡ bits word Imm19 }
{
    Bits::new((word >> 5) & 0x7_FFFF)
}

/// Bits 25:0, how far a branch goes, in words.
pub fn imm26(word: u32) -> Bits<26>
    ensures { result ≡ bits word Imm26 }
{
    Bits::new(word & 0x3FF_FFFF)
}

/// Bits 15:12, the condition of a select.
pub fn select_cond(word: u32) -> Cond
    ensures { result ≡ cond_of (bits word SelectCond) }
{
    cond((word >> 12) & 0xF)
}

/// Bits 3:0, the condition of a branch.
pub fn branch_cond(word: u32) -> Cond
    ensures { result ≡ cond_of (bits word BranchCond) }
{
    cond(word & 0xF)
}

/// The shift type with this number. The number 3, which is no shift's, reads as ASR.
fn shift_type(number: u32) -> Shift
    ensures { result ≡ shift_of number }
{
    match number {
        0 => Shift::Lsl,
        1 => Shift::Lsr,
        _ => Shift::Asr,
    }
}

/// The condition with this number. The number 15, which is no condition's, reads as AL.
fn cond(number: u32) -> Cond
    ensures { result ≡ cond_of number }
{
    match number {
        0 => Cond::Eq,
        1 => Cond::Ne,
        2 => Cond::Hs,
        3 => Cond::Lo,
        4 => Cond::Mi,
        5 => Cond::Pl,
        6 => Cond::Vs,
        7 => Cond::Vc,
        8 => Cond::Hi,
        9 => Cond::Ls,
        10 => Cond::Ge,
        11 => Cond::Lt,
        12 => Cond::Gt,
        13 => Cond::Le,
        _ => Cond::Al,
    }
}
