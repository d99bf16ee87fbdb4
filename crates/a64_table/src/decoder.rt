//! The instruction of a word.

ghost use Rattle.std.specs.Prelude.{◌≡◌, ◌↔◌, IsTrue, IfSome};
ghost use Rattle.a64_table.specs.Table.{word_of, InRange};
ghost use Rattle.a64_table.specs.Decode.{decode_of, row_at, immediate_row, branch_row, memory_row, bitwise_row, sum_row, source_row, product_row, register_row};
ghost use Rattle.a64_instr.specs.declared.instr.Instr.{Instr};

use crate::encoder::encode;
use crate::fields;
use a64_instr::Instr;
use a64_instr::Instr::*;

/// The instruction that the word stands for, where it is in the table.
///
/// The word's opcode bits leave one row at most. Whether all the bits that this row fixes are right is asked
/// of the row's own word, so that they are written once, in `encode`.
pub fn decode(word: u32) -> Option<Instr>
    ensures same { result ≡ decode_of word }
    ensures found { IfSome result (λ i. InRange i × (word_of i ≡ word)) }
    ensures only { (i : Instr) → InRange i → word_of i ≡ word → result ≡ Some i }
{
    let instr = row(word)?;
    if is_word_of(word, &instr) {
        Some(instr)
    } else {
        None
    }
}

/// Whether the word is the instruction's.
fn is_word_of(word: u32, instr: &Instr) -> bool
    ensures { IsTrue result ↔ (word_of instr.now ≡ word) }
{
    encode(instr) == word
}

/// The only row that can have the word, with the word's fields; by bits 28:25.
#[tactic(auto, unfolding(crate::specs::Decode::row_at))]
fn row(word: u32) -> Option<Instr>
    ensures { result ≡ row_at word }
{
    match (word >> 25) & 0xF {
        0x4 | 0xC => memory(word),
        0x5 | 0xD => register(word),
        0x8 | 0x9 => immediate(word),
        0xA | 0xB => branch(word),
        _ => None,
    }
}

/// Immediate operands.
#[tactic(auto, unfolding(crate::specs::Decode::immediate_row))]
fn immediate(word: u32) -> Option<Instr>
    ensures { result ≡ immediate_row word }
{
    let rd = fields::rd(word);
    let rn = fields::rn(word);
    let imm = fields::imm12(word);
    let high = fields::sh(word);
    match word >> 23 {
        0x122 => Some(AddImm { rd, rn, imm, high }),
        0x1A2 => Some(SubImm { rd, rn, imm, high }),
        0x1E2 => Some(SubsImm { rd, rn, imm, high }),
        0x125 => Some(Movn {
            rd,
            imm: fields::imm16(word),
            half: fields::hw(word),
        }),
        0x1A5 => Some(Movz {
            rd,
            imm: fields::imm16(word),
            half: fields::hw(word),
        }),
        0x1E5 => Some(Movk {
            rd,
            imm: fields::imm16(word),
            half: fields::hw(word),
        }),
        _ => None,
    }
}

/// Branches, services and traps.
#[tactic(auto, unfolding(crate::specs::Decode::branch_row))]
fn branch(word: u32) -> Option<Instr>
    ensures { result ≡ branch_row word }
{
    let rt = fields::rd(word);
    let rn = fields::rn(word);
    let to = fields::imm19(word);
    let imm = fields::imm16(word);
    match word >> 26 {
        0x05 => Some(B {
            to: fields::imm26(word),
        }),
        0x25 => Some(Bl {
            to: fields::imm26(word),
        }),
        0x15 => Some(BCond {
            to,
            cond: fields::branch_cond(word),
        }),
        0x2D => match word >> 24 {
            0xB4 => Some(Cbz { rt, to }),
            0xB5 => Some(Cbnz { rt, to }),
            _ => None,
        },
        0x35 => match word >> 21 {
            0x6B0 => Some(Br { rn }),
            0x6B1 => Some(Blr { rn }),
            0x6B2 => Some(Ret { rn }),
            0x6A0 => Some(Svc { imm }),
            0x6A1 => Some(Brk { imm }),
            _ => None,
        },
        _ => None,
    }
}

/// Loads and stores. In the rows with a register as offset bit 12 says whether it counts 8s.
#[tactic(auto, unfolding(crate::specs::Decode::memory_row))]
fn memory(word: u32) -> Option<Instr>
    ensures { result ≡ memory_row word }
{
    let rt = fields::rd(word);
    let rn = fields::rn(word);
    let rm = fields::rm(word);
    let imm = fields::imm12(word);
    let scaled = (word >> 12) & 1;
    match word >> 22 {
        0x3E5 => Some(Ldr { rt, rn, imm }),
        0x3E4 => Some(Str { rt, rn, imm }),
        0x0E5 => Some(Ldrb { rt, rn, imm }),
        0x0E4 => Some(Strb { rt, rn, imm }),
        0x3E1 if scaled == 0 => Some(LdrReg { rt, rn, rm }),
        0x3E1 => Some(LdrRegScaled { rt, rn, rm }),
        0x3E0 if scaled == 0 => Some(StrReg { rt, rn, rm }),
        0x3E0 => Some(StrRegScaled { rt, rn, rm }),
        0x0E1 => Some(LdrbReg { rt, rn, rm }),
        0x0E0 => Some(StrbReg { rt, rn, rm }),
        _ => None,
    }
}

/// Register operands, by bits 28:24.
#[tactic(auto, unfolding(crate::specs::Decode::register_row))]
fn register(word: u32) -> Option<Instr>
    ensures { result ≡ register_row word }
{
    match (word >> 24) & 0x1F {
        0x0A => bitwise(word),
        0x0B => sum(word),
        0x1A => source(word),
        0x1B => product(word),
        _ => None,
    }
}

/// Bitwise, with a shifted register, which bit 21 complements.
#[tactic(auto, unfolding(crate::specs::Decode::bitwise_row))]
fn bitwise(word: u32) -> Option<Instr>
    ensures { result ≡ bitwise_row word }
{
    let rd = fields::rd(word);
    let rn = fields::rn(word);
    let rm = fields::rm(word);
    let shift = fields::shift(word);
    let by = fields::imm6(word);
    let complemented = (word >> 21) & 1;
    match word >> 24 {
        0x8A if complemented == 0 => Some(AndReg {
            rd,
            rn,
            rm,
            shift,
            by,
        }),
        0x8A => Some(BicReg {
            rd,
            rn,
            rm,
            shift,
            by,
        }),
        0xAA if complemented == 0 => Some(OrrReg {
            rd,
            rn,
            rm,
            shift,
            by,
        }),
        0xAA => Some(OrnReg {
            rd,
            rn,
            rm,
            shift,
            by,
        }),
        0xCA => Some(EorReg {
            rd,
            rn,
            rm,
            shift,
            by,
        }),
        0xEA => Some(AndsReg {
            rd,
            rn,
            rm,
            shift,
            by,
        }),
        _ => None,
    }
}

/// Sums and differences, with a shifted register.
#[tactic(auto, unfolding(crate::specs::Decode::sum_row))]
fn sum(word: u32) -> Option<Instr>
    ensures { result ≡ sum_row word }
{
    let rd = fields::rd(word);
    let rn = fields::rn(word);
    let rm = fields::rm(word);
    let shift = fields::shift(word);
    let by = fields::imm6(word);
    match word >> 24 {
        0x8B => Some(AddReg {
            rd,
            rn,
            rm,
            shift,
            by,
        }),
        0xCB => Some(SubReg {
            rd,
            rn,
            rm,
            shift,
            by,
        }),
        0xEB => Some(SubsReg {
            rd,
            rn,
            rm,
            shift,
            by,
        }),
        _ => None,
    }
}

/// Divisions, shifts by a register, and selects.
#[tactic(auto, unfolding(crate::specs::Decode::source_row))]
fn source(word: u32) -> Option<Instr>
    ensures { result ≡ source_row word }
{
    let rd = fields::rd(word);
    let rn = fields::rn(word);
    let rm = fields::rm(word);
    let cond = fields::select_cond(word);
    let increments = (word >> 10) & 1;
    match word >> 21 {
        0x4D6 => match (word >> 10) & 0x3F {
            0x03 => Some(Sdiv { rd, rn, rm }),
            0x08 => Some(Lslv { rd, rn, rm }),
            0x09 => Some(Lsrv { rd, rn, rm }),
            0x0A => Some(Asrv { rd, rn, rm }),
            0x0B => Some(Rorv { rd, rn, rm }),
            _ => None,
        },
        0x4D4 if increments == 0 => Some(Csel { rd, rn, rm, cond }),
        0x4D4 => Some(Csinc { rd, rn, rm, cond }),
        0x6D4 => Some(Csneg { rd, rn, rm, cond }),
        _ => None,
    }
}

/// Products, added, or taken away where bit 15 says so.
#[tactic(auto, unfolding(crate::specs::Decode::product_row))]
fn product(word: u32) -> Option<Instr>
    ensures { result ≡ product_row word }
{
    let rd = fields::rd(word);
    let rn = fields::rn(word);
    let rm = fields::rm(word);
    let ra = fields::ra(word);
    if (word >> 15) & 1 == 0 {
        Some(Madd { rd, rn, rm, ra })
    } else {
        Some(Msub { rd, rn, rm, ra })
    }
}
