//! Complements, products, quotients, second operands and branch targets.

ghost use Rattle.std.specs.Prelude.{◌≡◌};
ghost use Rattle.wrapping_numbers.specs.Numbers.{bic64, orn64, madd64, msub64, sdiv64};
ghost use Rattle.a64_numbers.specs.Operands.{immediate, shifted};
ghost use Rattle.a64_numbers.specs.Branches.{branch_to};

use a64_instr::{Bits, Shift};
use wrapping_numbers::{asr, lsl, lsr};

/// BIC: the bits of `a` that `b` hasn't.
pub fn bic(a: u64, b: u64) -> u64
    ensures { result ≡ bic64 a b }
{
    a & !b
}

/// ORN: the bits of `a`, and those that `b` hasn't.
pub fn orn(a: u64, b: u64) -> u64
    ensures { result ≡ orn64 a b }
{
    a | !b
}

/// MADD: `c + a * b`, modulo 2^64.
pub fn madd(a: u64, b: u64, c: u64) -> u64
    ensures { result ≡ madd64 a b c }
{
    c.wrapping_add(a.wrapping_mul(b))
}

/// MSUB: `c - a * b`, modulo 2^64.
pub fn msub(a: u64, b: u64, c: u64) -> u64
    ensures { result ≡ msub64 a b c }
{
    c.wrapping_sub(a.wrapping_mul(b))
}

/// SDIV: the signed quotient toward 0; 0 for the divisor 0; the least number by -1 wraps.
pub fn sdiv(a: u64, b: u64) -> u64
    ensures { result ≡ sdiv64 a b }
{
    if b == 0 {
        0
    } else {
        a.cast_signed()
            .wrapping_div(b.cast_signed())
            .cast_unsigned()
    }
}

/// The number of a 12-bit immediate, which is shifted left by 12 where it is `high`.
pub fn immediate(imm: Bits<12>, high: bool) -> u64
    ensures { result ≡ immediate imm high }
{
    let imm = imm.get() as u64;
    if high { imm << 12 } else { imm }
}

/// The second operand of the shifted-register rows.
pub fn shifted(shift: Shift, value: u64, by: Bits<6>) -> u64
    ensures { result ≡ shifted shift value by }
{
    let by = by.get() as u64;
    match shift {
        Shift::Lsl => lsl(value, by),
        Shift::Lsr => lsr(value, by),
        Shift::Asr => asr(value, by),
    }
}

/// Where B and BL go from `pc`, in bytes.
pub fn branch_26(pc: u64, to: Bits<26>) -> u64
    ensures { result ≡ branch_to 26 pc to }
{
    let to = to.get() as u64;
    if to < 1 << 25 {
        pc.wrapping_add(4u64.wrapping_mul(to))
    } else {
        pc.wrapping_add(4u64.wrapping_mul(u64::MAX - 0x03ff_ffff + to))
    }
}

/// Where B.cond, CBZ and CBNZ go from `pc`, in bytes.
pub fn branch_19(pc: u64, to: Bits<19>) -> u64
    ensures { result ≡ branch_to 19 pc to }
{
    let to = to.get() as u64;
    if to < 1 << 18 {
        pc.wrapping_add(4u64.wrapping_mul(to))
    } else {
        pc.wrapping_add(4u64.wrapping_mul(u64::MAX - 0x7_ffff + to))
    }
}
