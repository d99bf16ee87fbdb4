//! Instructions in the shapes that code takes: two registers without a shift, numbers, branches over a word.

ghost use Rattle.std.specs.Prelude.{◌≡◌, ℕ, ◌+◌, ◌/◌, ◌%◌, ◌^◌, ◌<◌, ◌≤◌, true, false};
ghost use Rattle.a64_numbers.specs.Branches.{branch_field};
ghost use Rattle.a64_instr.specs.declared.instr.Instr.TheVariants.{AddImm, SubImm, SubsImm, AddReg, SubReg, SubsReg, AndReg, BicReg, OrrReg, OrnReg, EorReg, Lslv, Lsrv, Asrv, Rorv, Madd, Ldr, Str, Ldrb, Strb, Movz, Movn, BCond, Cbnz, Csel, Csinc, Csneg, Brk, Svc};
ghost use Rattle.a64_instr.specs.declared.instr.Shift.TheVariants.{Lsl};
ghost use Rattle.a64_instr.specs.declared.instr.Cond.TheVariants.{Ge};
ghost use Rattle.a64_machine.specs.State.{address_of};

use a64_instr::{Bits, Cond, Instr, Reg, Shift};

/// A register by its number.
pub(crate) fn register(number: u32) -> Reg
    requires { number < 2 ^ 5 }
    ensures { result ≡ number }
{
    Bits::new(number)
}

pub(crate) fn add(rd: Reg, rn: Reg, rm: Reg) -> Instr
    ensures { result ≡ AddReg rd rn rm Lsl 0 }
{
    Instr::AddReg {
        rd,
        rn,
        rm,
        shift: Shift::Lsl,
        by: Bits::new(0),
    }
}

pub(crate) fn sub(rd: Reg, rn: Reg, rm: Reg) -> Instr
    ensures { result ≡ SubReg rd rn rm Lsl 0 }
{
    Instr::SubReg {
        rd,
        rn,
        rm,
        shift: Shift::Lsl,
        by: Bits::new(0),
    }
}

pub(crate) fn moved(rd: Reg, rm: Reg) -> Instr
    ensures { result ≡ OrrReg rd 31 rm Lsl 0 }
{
    Instr::OrrReg {
        rd,
        rn: Bits::new(31),
        rm,
        shift: Shift::Lsl,
        by: Bits::new(0),
    }
}

/// A comparison of two registers.
pub(crate) fn against(rn: Reg, rm: Reg) -> Instr
    ensures { result ≡ SubsReg 31 rn rm Lsl 0 }
{
    Instr::SubsReg {
        rd: Bits::new(31),
        rn,
        rm,
        shift: Shift::Lsl,
        by: Bits::new(0),
    }
}

/// A comparison of a register and a number.
pub(crate) fn tests(rn: Reg, imm: Bits<12>) -> Instr
    ensures { result ≡ SubsImm 31 rn imm false }
{
    Instr::SubsImm {
        rd: Bits::new(31),
        rn,
        imm,
        high: false,
    }
}

/// The bits of a number from bit 12 on.
fn high(number: u32) -> Bits<12>
    requires { number < 2 ^ 24 }
    ensures { result ≡ number / 2 ^ 12 }
{
    Bits::new(number / 4096)
}

fn low(number: u32) -> Bits<12>
    ensures { result ≡ number % 2 ^ 12 }
{
    Bits::new(number % 4096)
}

pub(crate) fn add_high(rd: Reg, rn: Reg, number: u32) -> Instr
    requires { number < 2 ^ 24 }
    ensures { result ≡ AddImm rd rn (number / 2 ^ 12) true }
{
    Instr::AddImm {
        rd,
        rn,
        imm: high(number),
        high: true,
    }
}

pub(crate) fn add_low(rd: Reg, rn: Reg, number: u32) -> Instr
    ensures { result ≡ AddImm rd rn (number % 2 ^ 12) false }
{
    Instr::AddImm {
        rd,
        rn,
        imm: low(number),
        high: false,
    }
}

pub(crate) fn sub_high(rd: Reg, rn: Reg, number: u32) -> Instr
    requires { number < 2 ^ 24 }
    ensures { result ≡ SubImm rd rn (number / 2 ^ 12) true }
{
    Instr::SubImm {
        rd,
        rn,
        imm: high(number),
        high: true,
    }
}

pub(crate) fn sub_low(rd: Reg, rn: Reg, number: u32) -> Instr
    ensures { result ≡ SubImm rd rn (number % 2 ^ 12) false }
{
    Instr::SubImm {
        rd,
        rn,
        imm: low(number),
        high: false,
    }
}

/// A branch over one word.
pub(crate) fn skips(cond: Cond) -> Instr
    ensures { result ≡ BCond 2 cond }
{
    Instr::BCond {
        to: Bits::new(2),
        cond,
    }
}

pub(crate) fn brk(kind: u32) -> Instr
    requires { kind < 2 ^ 16 }
    ensures { result ≡ Brk kind }
{
    Instr::Brk {
        imm: Bits::new(kind),
    }
}

/// 1 where the condition doesn't hold, else 0.
pub(crate) fn one_unless(rd: Reg, cond: Cond) -> Instr
    ensures { result ≡ Csinc rd 31 31 cond }
{
    Instr::Csinc {
        rd,
        rn: Bits::new(31),
        rm: Bits::new(31),
        cond,
    }
}

/// A number of sixteen bits, the other bits zero.
pub(crate) fn small(rd: Reg, number: u32) -> Instr
    requires { number < 2 ^ 16 }
    ensures { result ≡ Movz rd number 0 }
{
    Instr::Movz {
        rd,
        imm: Bits::new(number),
        half: Bits::new(0),
    }
}

pub(crate) fn load(rt: Reg, rn: Reg, cell: u32) -> Instr
    requires { cell < 2 ^ 12 }
    ensures { result ≡ Ldr rt rn cell }
{
    Instr::Ldr {
        rt,
        rn,
        imm: Bits::new(cell),
    }
}

pub(crate) fn store(rt: Reg, rn: Reg, cell: u32) -> Instr
    requires { cell < 2 ^ 12 }
    ensures { result ≡ Str rt rn cell }
{
    Instr::Str {
        rt,
        rn,
        imm: Bits::new(cell),
    }
}

/// The field of a branch between two words.
pub(crate) fn distance(from: u32, to: u32) -> Bits<26>
    requires from { from < 2 ^ 18 }
    requires to { to ≤ 2 ^ 18 }
    ensures { result ≡ branch_field 26 (address_of from) (address_of to) }
{
    if from <= to {
        Bits::new(to - from)
    } else {
        Bits::new((1 << 26) - (from - to))
    }
}

pub(crate) fn and(rd: Reg, rn: Reg, rm: Reg) -> Instr
    ensures { result ≡ AndReg rd rn rm Lsl 0 }
{
    Instr::AndReg {
        rd,
        rn,
        rm,
        shift: Shift::Lsl,
        by: Bits::new(0),
    }
}

pub(crate) fn or(rd: Reg, rn: Reg, rm: Reg) -> Instr
    ensures { result ≡ OrrReg rd rn rm Lsl 0 }
{
    Instr::OrrReg {
        rd,
        rn,
        rm,
        shift: Shift::Lsl,
        by: Bits::new(0),
    }
}

/// All bits.
pub(crate) fn ones(rd: Reg) -> Instr
    ensures { result ≡ Movn rd 0 0 }
{
    Instr::Movn {
        rd,
        imm: Bits::new(0),
        half: Bits::new(0),
    }
}

/// A branch over one word where a register isn't 0.
pub(crate) fn skips_nonzero(rt: Reg) -> Instr
    ensures { result ≡ Cbnz rt 2 }
{
    Instr::Cbnz {
        rt,
        to: Bits::new(2),
    }
}

pub(crate) fn eor(rd: Reg, rn: Reg, rm: Reg) -> Instr
    ensures { result ≡ EorReg rd rn rm Lsl 0 }
{
    Instr::EorReg {
        rd,
        rn,
        rm,
        shift: Shift::Lsl,
        by: Bits::new(0),
    }
}

/// The bits of one register that another hasn't.
pub(crate) fn bic(rd: Reg, rn: Reg, rm: Reg) -> Instr
    ensures { result ≡ BicReg rd rn rm Lsl 0 }
{
    Instr::BicReg {
        rd,
        rn,
        rm,
        shift: Shift::Lsl,
        by: Bits::new(0),
    }
}

/// The bits of one register, and those that another hasn't.
pub(crate) fn orn(rd: Reg, rn: Reg, rm: Reg) -> Instr
    ensures { result ≡ OrnReg rd rn rm Lsl 0 }
{
    Instr::OrnReg {
        rd,
        rn,
        rm,
        shift: Shift::Lsl,
        by: Bits::new(0),
    }
}

pub(crate) fn lsl(rd: Reg, rn: Reg, rm: Reg) -> Instr
    ensures { result ≡ Lslv rd rn rm }
{
    Instr::Lslv { rd, rn, rm }
}

pub(crate) fn lsr(rd: Reg, rn: Reg, rm: Reg) -> Instr
    ensures { result ≡ Lsrv rd rn rm }
{
    Instr::Lsrv { rd, rn, rm }
}

pub(crate) fn asr(rd: Reg, rn: Reg, rm: Reg) -> Instr
    ensures { result ≡ Asrv rd rn rm }
{
    Instr::Asrv { rd, rn, rm }
}

pub(crate) fn ror(rd: Reg, rn: Reg, rm: Reg) -> Instr
    ensures { result ≡ Rorv rd rn rm }
{
    Instr::Rorv { rd, rn, rm }
}

pub(crate) fn madd(rd: Reg, rn: Reg, rm: Reg, ra: Reg) -> Instr
    ensures { result ≡ Madd rd rn rm ra }
{
    Instr::Madd { rd, rn, rm, ra }
}

pub(crate) fn load_byte(rt: Reg, rn: Reg) -> Instr
    ensures { result ≡ Ldrb rt rn 0 }
{
    Instr::Ldrb {
        rt,
        rn,
        imm: Bits::new(0),
    }
}

pub(crate) fn store_byte(rt: Reg, rn: Reg) -> Instr
    ensures { result ≡ Strb rt rn 0 }
{
    Instr::Strb {
        rt,
        rn,
        imm: Bits::new(0),
    }
}

/// The amount of a number, behind its comparison with 0.
pub(crate) fn amount(rd: Reg, rn: Reg) -> Instr
    ensures { result ≡ Csneg rd rn rn Ge }
{
    Instr::Csneg {
        rd,
        rn,
        rm: rn,
        cond: Cond::Ge,
    }
}

/// A number, or 0 where it is negative, behind its comparison with 0.
pub(crate) fn not_negative(rd: Reg, rn: Reg) -> Instr
    ensures { result ≡ Csel rd rn 31 Ge }
{
    Instr::Csel {
        rd,
        rn,
        rm: Bits::new(31),
        cond: Cond::Ge,
    }
}

pub(crate) fn service(number: u16) -> Instr
    ensures { result ≡ Svc number }
{
    Instr::Svc {
        imm: Bits::new(u32::from(number)),
    }
}
