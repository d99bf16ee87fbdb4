//! The word of an instruction.

ghost use Rattle.std.specs.Prelude.{◌≡◌, ℕ, ◌+◌, ◌*◌, ◌<◌, ◌^◌, [], ◌∷◌};
ghost use Rattle.a64_table.specs.Shifted.{shift_fields};
ghost use Rattle.a64_table.specs.Table.{word_of, InRange, filled, AllFit, ◌is◌, Rd, Rn, Rm, Ra, Imm12, Sh, Imm16, Hw, SelectCond, bit_number, cond_number};

use a64_instr::Instr::*;
use a64_instr::{Bits, Cond, Instr, Reg};

/// The word of the instruction: the base of its row, and each field at its place.
pub fn encode(instr: &Instr) -> u32
    ensures word { result ≡ word_of instr.now }
    ensures below { word_of instr.now < 2 ^ 32 }
    ensures in_range { InRange instr.now }
{
    match *instr {
        AddImm { rd, rn, imm, high } => 0x9100_0000 + immediate(rd, rn, imm, high),
        SubImm { rd, rn, imm, high } => 0xD100_0000 + immediate(rd, rn, imm, high),
        SubsImm { rd, rn, imm, high } => 0xF100_0000 + immediate(rd, rn, imm, high),
        AddReg { rd, rn, rm, .. } => 0x8B00_0000 + registers(rd, rn, rm) + shift_fields(instr),
        SubReg { rd, rn, rm, .. } => 0xCB00_0000 + registers(rd, rn, rm) + shift_fields(instr),
        SubsReg { rd, rn, rm, .. } => 0xEB00_0000 + registers(rd, rn, rm) + shift_fields(instr),
        AndReg { rd, rn, rm, .. } => 0x8A00_0000 + registers(rd, rn, rm) + shift_fields(instr),
        BicReg { rd, rn, rm, .. } => 0x8A20_0000 + registers(rd, rn, rm) + shift_fields(instr),
        OrrReg { rd, rn, rm, .. } => 0xAA00_0000 + registers(rd, rn, rm) + shift_fields(instr),
        OrnReg { rd, rn, rm, .. } => 0xAA20_0000 + registers(rd, rn, rm) + shift_fields(instr),
        EorReg { rd, rn, rm, .. } => 0xCA00_0000 + registers(rd, rn, rm) + shift_fields(instr),
        AndsReg { rd, rn, rm, .. } => 0xEA00_0000 + registers(rd, rn, rm) + shift_fields(instr),
        Movn { rd, imm, half } => 0x9280_0000 + wide(rd, imm, half),
        Movz { rd, imm, half } => 0xD280_0000 + wide(rd, imm, half),
        Movk { rd, imm, half } => 0xF280_0000 + wide(rd, imm, half),
        Madd { rd, rn, rm, ra } => 0x9B00_0000 + registers(rd, rn, rm) + (ra.get() << 10),
        Msub { rd, rn, rm, ra } => 0x9B00_8000 + registers(rd, rn, rm) + (ra.get() << 10),
        Sdiv { rd, rn, rm } => 0x9AC0_0C00 + registers(rd, rn, rm),
        Lslv { rd, rn, rm } => 0x9AC0_2000 + registers(rd, rn, rm),
        Lsrv { rd, rn, rm } => 0x9AC0_2400 + registers(rd, rn, rm),
        Asrv { rd, rn, rm } => 0x9AC0_2800 + registers(rd, rn, rm),
        Rorv { rd, rn, rm } => 0x9AC0_2C00 + registers(rd, rn, rm),
        Csel { rd, rn, rm, cond } => 0x9A80_0000 + select(rd, rn, rm, cond),
        Csinc { rd, rn, rm, cond } => 0x9A80_0400 + select(rd, rn, rm, cond),
        Csneg { rd, rn, rm, cond } => 0xDA80_0400 + select(rd, rn, rm, cond),
        B { to } => 0x1400_0000 + to.get(),
        Bl { to } => 0x9400_0000 + to.get(),
        BCond { to, cond } => 0x5400_0000 + (to.get() << 5) + cond as u32,
        Cbz { rt, to } => 0xB400_0000 + rt.get() + (to.get() << 5),
        Cbnz { rt, to } => 0xB500_0000 + rt.get() + (to.get() << 5),
        Br { rn } => 0xD61F_0000 + (rn.get() << 5),
        Blr { rn } => 0xD63F_0000 + (rn.get() << 5),
        Ret { rn } => 0xD65F_0000 + (rn.get() << 5),
        Ldr { rt, rn, imm } => 0xF940_0000 + immediate(rt, rn, imm, false),
        Str { rt, rn, imm } => 0xF900_0000 + immediate(rt, rn, imm, false),
        Ldrb { rt, rn, imm } => 0x3940_0000 + immediate(rt, rn, imm, false),
        Strb { rt, rn, imm } => 0x3900_0000 + immediate(rt, rn, imm, false),
        LdrReg { rt, rn, rm } => 0xF860_6800 + registers(rt, rn, rm),
        LdrRegScaled { rt, rn, rm } => 0xF860_7800 + registers(rt, rn, rm),
        StrReg { rt, rn, rm } => 0xF820_6800 + registers(rt, rn, rm),
        StrRegScaled { rt, rn, rm } => 0xF820_7800 + registers(rt, rn, rm),
        LdrbReg { rt, rn, rm } => 0x3860_6800 + registers(rt, rn, rm),
        StrbReg { rt, rn, rm } => 0x3820_6800 + registers(rt, rn, rm),
        Svc { imm } => 0xD400_0001 + (imm.get() << 5),
        Brk { imm } => 0xD420_0000 + (imm.get() << 5),
    }
}

/// Two registers, 12 bits, and whether they count 4096s.
fn immediate(rd: Reg, rn: Reg, imm: Bits<12>, high: bool) -> u32
    ensures fields { result ≡ filled ((Rd is rd) ∷ (Rn is rn) ∷ (Imm12 is imm) ∷ (Sh is bit_number high) ∷ []) }
    ensures fit { AllFit ((Rd is rd) ∷ (Rn is rn) ∷ (Imm12 is imm) ∷ (Sh is bit_number high) ∷ []) }
    ensures below { result < 2 ^ 23 }
{
    rd.get() + (rn.get() << 5) + (imm.get() << 10) + ((high as u32) << 22)
}

/// A register, 16 bits, and which half word they are.
fn wide(rd: Reg, imm: Bits<16>, half: Bits<2>) -> u32
    ensures fields { result ≡ filled ((Rd is rd) ∷ (Imm16 is imm) ∷ (Hw is half) ∷ []) }
    ensures fit { AllFit ((Rd is rd) ∷ (Imm16 is imm) ∷ (Hw is half) ∷ []) }
    ensures below { result < 2 ^ 23 }
{
    rd.get() + (imm.get() << 5) + (half.get() << 21)
}

/// Three registers.
fn registers(rd: Reg, rn: Reg, rm: Reg) -> u32
    ensures fields { result ≡ filled ((Rd is rd) ∷ (Rn is rn) ∷ (Rm is rm) ∷ []) }
    ensures fit { AllFit ((Rd is rd) ∷ (Rn is rn) ∷ (Rm is rm) ∷ []) }
    ensures below { result < 2 ^ 21 }
{
    rd.get() + (rn.get() << 5) + (rm.get() << 16)
}

/// How and by how much the row's second operand is shifted; 0 where the row doesn't say.
fn shift_fields(instr: &Instr) -> u32
    ensures fields { result ≡ filled (shift_fields instr.now) }
    ensures fit { AllFit (shift_fields instr.now) }
    ensures below { result < 2 ^ 24 }
{
    match *instr {
        AddReg { shift, by, .. }
        | SubReg { shift, by, .. }
        | SubsReg { shift, by, .. }
        | AndReg { shift, by, .. }
        | BicReg { shift, by, .. }
        | OrrReg { shift, by, .. }
        | OrnReg { shift, by, .. }
        | EorReg { shift, by, .. }
        | AndsReg { shift, by, .. } => (by.get() << 10) + ((shift as u32) << 22),
        _ => 0,
    }
}

/// Three registers, and the condition that chooses.
fn select(rd: Reg, rn: Reg, rm: Reg, cond: Cond) -> u32
    ensures fields { result ≡ filled ((Rd is rd) ∷ (Rn is rn) ∷ (SelectCond is cond_number cond) ∷ (Rm is rm) ∷ []) }
    ensures fit { AllFit ((Rd is rd) ∷ (Rn is rn) ∷ (SelectCond is cond_number cond) ∷ (Rm is rm) ∷ []) }
    ensures below { result < 2 ^ 21 }
{
    registers(rd, rn, rm) + ((cond as u32) << 12)
}
