//! The flags and the conditions on them.

ghost use Rattle.std.specs.Prelude.{◌≡◌};
ghost use Rattle.a64_numbers.specs.Conditions.{subs_flags, ands_flags, holds, opposite, csel, csinc, csneg};

use a64_instr::Cond;

/// The flags N, Z, C and V.
#[derive(Clone, Copy, PartialEq, Eq)]
pub struct Flags {
    pub negative: bool,
    pub zero: bool,
    pub carry: bool,
    pub overflow: bool,
}

/// The flags that SUBS of `a` and `b` sets: the sign, no difference, no borrow, signed overflow.
pub fn subs_flags(a: u64, b: u64) -> Flags
    ensures { result ≡ subs_flags a b }
{
    let difference = a.wrapping_sub(b);
    let top = 1u64 << 63;
    Flags {
        negative: difference >= top,
        zero: difference == 0,
        carry: a >= b,
        overflow: (a >= top) != (b >= top) && (difference >= top) != (a >= top),
    }
}

/// The flags that ANDS sets where it gives `value`: its sign, and whether it is 0.
pub fn ands_flags(value: u64) -> Flags
    ensures { result ≡ ands_flags value }
{
    Flags {
        negative: value >= 1u64 << 63,
        zero: value == 0,
        carry: false,
        overflow: false,
    }
}

/// Whether the condition holds at these flags.
pub fn holds(cond: Cond, flags: Flags) -> bool
    ensures { result ≡ holds cond flags }
{
    match cond {
        Cond::Eq => flags.zero,
        Cond::Ne => !flags.zero,
        Cond::Hs => flags.carry,
        Cond::Lo => !flags.carry,
        Cond::Mi => flags.negative,
        Cond::Pl => !flags.negative,
        Cond::Vs => flags.overflow,
        Cond::Vc => !flags.overflow,
        Cond::Hi => flags.carry && !flags.zero,
        Cond::Ls => !(flags.carry && !flags.zero),
        Cond::Ge => flags.negative == flags.overflow,
        Cond::Lt => flags.negative != flags.overflow,
        Cond::Gt => !flags.zero && flags.negative == flags.overflow,
        Cond::Le => !(!flags.zero && flags.negative == flags.overflow),
        Cond::Al => true,
    }
}

/// The condition that holds where this one doesn't. AL has none, and stays.
pub fn opposite(cond: Cond) -> Cond
    ensures { result ≡ opposite cond }
{
    match cond {
        Cond::Eq => Cond::Ne,
        Cond::Ne => Cond::Eq,
        Cond::Hs => Cond::Lo,
        Cond::Lo => Cond::Hs,
        Cond::Mi => Cond::Pl,
        Cond::Pl => Cond::Mi,
        Cond::Vs => Cond::Vc,
        Cond::Vc => Cond::Vs,
        Cond::Hi => Cond::Ls,
        Cond::Ls => Cond::Hi,
        Cond::Ge => Cond::Lt,
        Cond::Lt => Cond::Ge,
        Cond::Gt => Cond::Le,
        Cond::Le => Cond::Gt,
        Cond::Al => Cond::Al,
    }
}

/// CSEL: `n` where the condition holds, else `m`.
pub fn csel(cond: Cond, flags: Flags, n: u64, m: u64) -> u64
    ensures { result ≡ csel cond flags n m }
{
    if holds(cond, flags) { n } else { m }
}

/// CSINC: `n` where the condition holds, else `m + 1`, modulo 2^64.
pub fn csinc(cond: Cond, flags: Flags, n: u64, m: u64) -> u64
    ensures { result ≡ csinc cond flags n m }
{
    if holds(cond, flags) {
        n
    } else {
        m.wrapping_add(1)
    }
}

/// CSNEG: `n` where the condition holds, else `-m`, modulo 2^64.
pub fn csneg(cond: Cond, flags: Flags, n: u64, m: u64) -> u64
    ensures { result ≡ csneg cond flags n m }
{
    if holds(cond, flags) {
        n
    } else {
        m.wrapping_neg()
    }
}
