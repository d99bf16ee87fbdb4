//! Moves of sixteen bits into a register, and the moves that make a constant.

ghost use Rattle.std.specs.Prelude.{◌≡◌, ◌<◌, ◌^◌, ◌==◌, cond};
ghost use Rattle.a64_numbers.specs.Moves.{half, movz, movn, movk, halves, more_ones, filling, lowest, beginning, move_of_half, half_moves};

use a64_instr::Bits;

/// A move of sixteen bits into one half of a register; the lowest half is 0.
#[derive(Clone, Copy)]
pub enum Move {
    /// MOVZ: that half, and the others 0.
    Movz(Bits<16>, Bits<2>),
    /// MOVN: the complement of MOVZ.
    Movn(Bits<16>, Bits<2>),
    /// MOVK: that half, and the others stay.
    Movk(Bits<16>, Bits<2>),
}

/// MOVZ: `imm` in that half, and the others 0.
pub fn movz(imm: Bits<16>, half: Bits<2>) -> u64
    ensures { result ≡ movz imm half }
{
    let imm = imm.get() as u64;
    match half.get() {
        0 => imm,
        1 => imm << 16,
        2 => imm << 32,
        _ => imm << 48,
    }
}

/// MOVN: the complement of `imm` in that half.
pub fn movn(imm: Bits<16>, half: Bits<2>) -> u64
    ensures { result ≡ movn imm half }
{
    u64::MAX - movz(imm, half)
}

/// MOVK: `value` with that half replaced by `imm`.
pub fn movk(value: u64, imm: Bits<16>, half: Bits<2>) -> u64
    ensures { result ≡ movk value imm half }
{
    with_half(value, imm.get() as u64, half.get())
}

fn with_half(value: u64, imm: u64, i: u32) -> u64
    requires imm { imm < 2 ^ 16 }
    requires half { i < 4 }
    ensures { result ≡ movk value imm i }
{
    match i {
        0 => value - (value & 0xffff) + imm,
        1 => value - ((value >> 16 & 0xffff) << 16) + (imm << 16),
        2 => value - ((value >> 32 & 0xffff) << 32) + (imm << 32),
        _ => value - ((value >> 48 & 0xffff) << 48) + (imm << 48),
    }
}

/// Sixteen bits of `n`, half `i` from 0.
fn half_of(n: u64, i: u32) -> u64
    requires { i < 4 }
    ensures { result ≡ half n i }
{
    n >> (16 * i) & 0xffff
}

/// How many of the four halves are `imm`.
fn count_of(n: u64, imm: u64) -> u8
    ensures { result ≡ halves n imm }
{
    is_half(n, 0, imm) + is_half(n, 1, imm) + is_half(n, 2, imm) + is_half(n, 3, imm)
}

/// 1 where half `i` of `n` is `imm`, else 0.
fn is_half(n: u64, i: u32, imm: u64) -> u8
    requires { i < 4 }
    ensures { result ≡ cond (half n i == imm) 1 0 }
{
    if half_of(n, i) == imm { 1 } else { 0 }
}

fn more_halves_are_ones(n: u64) -> bool
    ensures { result ≡ more_ones n }
{
    count_of(n, 0) < count_of(n, 0xffff)
}

fn filling(ones: bool) -> u64
    ensures { result ≡ filling ones }
{
    if ones { 0xffff } else { 0 }
}

/// The lowest half of `n` that isn't filled, 0 where each is.
fn lowest(ones: bool, n: u64) -> u32
    ensures { result ≡ lowest ones n }
{
    let filling = filling(ones);
    if half_of(n, 0) != filling {
        0
    } else if half_of(n, 1) != filling {
        1
    } else if half_of(n, 2) != filling {
        2
    } else if half_of(n, 3) != filling {
        3
    } else {
        0
    }
}

fn beginning(ones: bool, imm: u32, i: u32) -> Move
    requires imm { imm < 2 ^ 16 }
    requires half { i < 4 }
    ensures { result ≡ beginning ones imm i }
{
    if ones {
        Move::Movn(Bits::new(0xffff - imm), Bits::new(i))
    } else {
        Move::Movz(Bits::new(imm), Bits::new(i))
    }
}

fn move_of_half(ones: bool, n: u64, i: u32) -> Option<Move>
    requires { i < 4 }
    ensures { result ≡ move_of_half ones n i }
{
    let imm = half_of(n, i);
    if i == lowest(ones, n) {
        return Some(beginning(ones, imm as u32, i));
    }
    if imm == filling(ones) {
        return None;
    }
    Some(Move::Movk(Bits::new(imm as u32), Bits::new(i)))
}

/// The moves that make the constant `n`, a place for each half, lowest first; one at least is there. Where more halves
/// are FFFF than 0, MOVN of the lowest that isn't FFFF and MOVK of each other one that isn't; else MOVZ and MOVK
/// of those that aren't 0. The lowest is half 0 where all four are filled.
pub fn constant_moves(n: u64) -> [Option<Move>; 4]
    ensures { result ≡ half_moves (more_ones n) n }
{
    let ones = more_halves_are_ones(n);
    [
        move_of_half(ones, n, 0),
        move_of_half(ones, n, 1),
        move_of_half(ones, n, 2),
        move_of_half(ones, n, 3),
    ]
}
