//! The words of operations.

ghost use Rattle.std.specs.Prelude.{◌≡◌, ℕ, ◌+◌, ◌/◌, ◌%◌, ◌<◌, ◌≤◌, ◌^◌, [], ◌∷◌, ◌++◌, map, length, true, false, OnOk};
ghost use Rattle.a64_instr.specs.declared.instr.Instr.TheVariants.{AddImm, SubImm, Cbnz, Csinc, Brk};
ghost use Rattle.a64_table.specs.Table.{word_of};
ghost use Rattle.a64_table.specs.Decode.{cond_of};
ghost use Rattle.a64_runtime.specs.Routines.{against, copy_words, zero_words};
ghost use Rattle.block_runs.specs.declared.code.Code.TheVariants as o;
ghost use Rattle.placed_code.specs.Words.{op_words, calls_at, tests, breaks_unless};
ghost use Rattle.link_words.specs.Fields.{NumberFits, InReach, entry_in};

use crate::pushing::{push, push_all, push_constant};
use crate::shapes::*;
use crate::slots::push_load;
use a64_instr::{Bits, Cond, Instr, Reg, Shift};
use a64_numbers::opposite;
use block_runs::Code;
use outside::Memory;

/// The registers of an operation's uses and of its definition.
#[derive(Clone, Copy)]
pub struct Registers {
    pub a: Reg,
    pub b: Reg,
    pub c: Reg,
    pub d: Reg,
}

/// Appends an operation's words: calls go to the first words of procedures and of the routines, and the frame has so many
/// slots.
pub fn push_operation(
    words: &mut Vec<u32>,
    entries: &[u32],
    routines: u32,
    slots: u32,
    code: Code,
    r: Registers,
) -> Result<(), Memory>
    requires number { NumberFits slots code }
    requires entries { InReach entries.now }
    requires routines { routines < 2 ^ 17 }
    requires near { length words.old.items < 2 ^ 18 }
    ensures { OnOk result (words.new.items ≡ words.old.items ++ map word_of (op_words (entry_in entries.now) routines slots (length words.old.items) code r.a r.b r.c r.d)) }
{
    let Registers { a, b, c, d } = r;
    let one = match code {
        Code::Const(number) => return push_constant(words, d, number),
        Code::Global(n) => return push_sum(words, d, register(24), n),
        Code::Local(n) => return push_difference(words, d, register(19), n),
        Code::Plus(n) => return push_sum(words, d, a, n),
        Code::Code(p) => return push_address(words, d, entry_of(entries, p)),
        Code::Arg(n) => return push_load(words, d, slots + n.saturating_sub(4)),
        Code::Load => load(d, a, 0),
        Code::Store => store(b, a, 0),
        Code::LoadByte => load_byte(d, a),
        Code::StoreByte => store_byte(b, a),
        Code::Add => add(d, a, b),
        Code::Sub => sub(d, a, b),
        Code::And => and(d, a, b),
        Code::Or => or(d, a, b),
        Code::Eor => eor(d, a, b),
        Code::Bic => bic(d, a, b),
        Code::Lsl => lsl(d, a, b),
        Code::Asr => asr(d, a, b),
        Code::Ror => ror(d, a, b),
        Code::Mul => madd(d, a, b, register(31)),
        Code::MulAdd => madd(d, a, b, c),
        Code::Neg => sub(d, register(31), a),
        Code::Not => orn(d, register(31), a),
        Code::Abs => return push_abs(words, r),
        Code::Max0 => return push_max0(words, r),
        Code::Odd => return push_odd(words, r),
        Code::Set(n) => return push_set(words, r, opposite(condition(n))),
        Code::Flip => return push_flip(words, r),
        Code::Bit => return push_bit(words, r),
        Code::Span => return push_span(words, r),
        Code::Has => return push_has(words, r),
        Code::Div => return push_div(words, r),
        Code::Mod => return push_mod(words, r),
        Code::Below => return push_compared(words, r, Cond::Lo, 1),
        Code::Fits => return push_compared(words, r, Cond::Ls, 12),
        Code::Byte => return push_tested(words, a, 255, Cond::Ls, 11),
        Code::Elem => return push_tested(words, a, 63, Cond::Ls, 7),
        Code::NotNil => return push_not_zero(words, a, 2),
        Code::True => return push_not_zero(words, a, 5),
        Code::IsPtr(j) => return push_is_pointer(words, r, j),
        Code::IsTag(j) => return push_is_tag(words, r, j),
        Code::GuardPtr(j) => return push_guard(words, r, j),
        Code::GuardTag(j) => return push_guard_tag(words, r, j),
        Code::New => return push_new(words, r),
        Code::Call(p) => return push_call(words, entry_of(entries, p)),
        Code::CallAt => Instr::Blr { rn: register(25) },
        Code::Copy => return push_call(words, routines),
        Code::Zero => return push_call(words, routines + 15),
        Code::Compare => return push_call(words, routines + 22),
        Code::Svc(n) => service(n),
    };
    push(words, one)
}

/// The first word of a procedure.
pub(crate) fn entry_of(entries: &[u32], procedure: u32) -> u32
    ensures { result ≡ entry_in entries.now procedure }
{
    match entries.get(procedure as usize) {
        Some(entry) => *entry,
        None => 0,
    }
}

/// A condition by its number.
pub(crate) fn condition(number: u8) -> Cond
    ensures { result ≡ cond_of number }
{
    match number {
        0 => Cond::Eq,
        1 => Cond::Ne,
        2 => Cond::Hs,
        3 => Cond::Lo,
        4 => Cond::Mi,
        5 => Cond::Pl,
        6 => Cond::Vs,
        7 => Cond::Vc,
        8 => Cond::Hi,
        9 => Cond::Ls,
        10 => Cond::Ge,
        11 => Cond::Lt,
        12 => Cond::Gt,
        13 => Cond::Le,
        _ => Cond::Al,
    }
}

/// Appends what adds a number of 24 bits to a register.
#[inline(never)]
fn push_sum(words: &mut Vec<u32>, rd: Reg, rn: Reg, number: u32) -> Result<(), Memory>
    requires { number < 2 ^ 24 }
    ensures { OnOk result (words.new.items ≡ words.old.items ++ map word_of (AddImm rd rn (number / 2 ^ 12) true ∷ AddImm rd rd (number % 2 ^ 12) false ∷ [])) }
{
    push_all(words, &[add_high(rd, rn, number), add_low(rd, rd, number)])
}

/// Appends what takes a number of 24 bits from a register.
#[inline(never)]
fn push_difference(words: &mut Vec<u32>, rd: Reg, rn: Reg, number: u32) -> Result<(), Memory>
    requires { number < 2 ^ 24 }
    ensures { OnOk result (words.new.items ≡ words.old.items ++ map word_of (SubImm rd rn (number / 2 ^ 12) true ∷ SubImm rd rd (number % 2 ^ 12) false ∷ [])) }
{
    push_all(words, &[sub_high(rd, rn, number), sub_low(rd, rd, number)])
}

#[inline(never)]
fn push_abs(words: &mut Vec<u32>, r: Registers) -> Result<(), Memory>
    ensures { OnOk result (words.new.items ≡ words.old.items ++ map word_of (op_words (λ p. 0) 0 0 0 o.Abs r.a r.b r.c r.d)) }
{
    push_all(words, &[tests(r.a, Bits::new(0)), amount(r.d, r.a)])
}

#[inline(never)]
fn push_max0(words: &mut Vec<u32>, r: Registers) -> Result<(), Memory>
    ensures { OnOk result (words.new.items ≡ words.old.items ++ map word_of (op_words (λ p. 0) 0 0 0 o.Max0 r.a r.b r.c r.d)) }
{
    push_all(words, &[tests(r.a, Bits::new(0)), not_negative(r.d, r.a)])
}

#[inline(never)]
fn push_odd(words: &mut Vec<u32>, r: Registers) -> Result<(), Memory>
    ensures { OnOk result (words.new.items ≡ words.old.items ++ map word_of (op_words (λ p. 0) 0 0 0 o.Odd r.a r.b r.c r.d)) }
{
    let x = register(16);
    push_all(words, &[small(x, 1), and(r.d, r.a, x)])
}

#[inline(never)]
fn push_flip(words: &mut Vec<u32>, r: Registers) -> Result<(), Memory>
    ensures { OnOk result (words.new.items ≡ words.old.items ++ map word_of (op_words (λ p. 0) 0 0 0 o.Flip r.a r.b r.c r.d)) }
{
    push_all(
        words,
        &[tests(r.a, Bits::new(0)), one_unless(r.d, Cond::Ne)],
    )
}

#[inline(never)]
fn push_bit(words: &mut Vec<u32>, r: Registers) -> Result<(), Memory>
    ensures { OnOk result (words.new.items ≡ words.old.items ++ map word_of (op_words (λ p. 0) 0 0 0 o.Bit r.a r.b r.c r.d)) }
{
    let x = register(16);
    push_all(words, &[small(x, 1), lsl(r.d, x, r.a)])
}

#[inline(never)]
fn push_has(words: &mut Vec<u32>, r: Registers) -> Result<(), Memory>
    ensures { OnOk result (words.new.items ≡ words.old.items ++ map word_of (op_words (λ p. 0) 0 0 0 o.Has r.a r.b r.c r.d)) }
{
    let (x, y) = (register(16), register(17));
    push_all(words, &[lsr(x, r.b, r.a), small(y, 1), and(r.d, x, y)])
}

/// Appends the trap of two registers that don't compare so.
#[inline(never)]
fn push_compared(words: &mut Vec<u32>, r: Registers, cond: Cond, kind: u32) -> Result<(), Memory>
    requires { kind < 2 ^ 16 }
    ensures { OnOk result (words.new.items ≡ words.old.items ++ map word_of (against r.a r.b ∷ breaks_unless cond kind)) }
{
    push_all(words, &[against(r.a, r.b), skips(cond), brk(kind)])
}

/// Appends the trap of a register that doesn't compare so with a number.
#[inline(never)]
fn push_tested(
    words: &mut Vec<u32>,
    rn: Reg,
    number: u32,
    cond: Cond,
    kind: u32,
) -> Result<(), Memory>
    requires number { number < 2 ^ 12 }
    requires kind { kind < 2 ^ 16 }
    ensures { OnOk result (words.new.items ≡ words.old.items ++ map word_of (tests rn number ∷ breaks_unless cond kind)) }
{
    push_all(
        words,
        &[tests(rn, Bits::new(number)), skips(cond), brk(kind)],
    )
}

/// Appends the trap of a register that is 0.
#[inline(never)]
fn push_not_zero(words: &mut Vec<u32>, rt: Reg, kind: u32) -> Result<(), Memory>
    requires { kind < 2 ^ 16 }
    ensures { OnOk result (words.new.items ≡ words.old.items ++ map word_of (Cbnz rt 2 ∷ Brk kind ∷ [])) }
{
    push_all(words, &[skips_nonzero(rt), brk(kind)])
}

/// Appends a call of the code at a word.
#[inline(never)]
fn push_call(words: &mut Vec<u32>, to: u32) -> Result<(), Memory>
    requires to { to ≤ 2 ^ 18 }
    requires near { length words.old.items < 2 ^ 18 }
    ensures { OnOk result (words.new.items ≡ words.old.items ++ map word_of (calls_at (length words.old.items) to)) }
{
    let from = words.len() as u32;
    push(
        words,
        Instr::Bl {
            to: distance(from, to),
        },
    )
}

/// Appends what makes the address of a word.
#[inline(never)]
fn push_address(words: &mut Vec<u32>, rd: Reg, word: u32) -> Result<(), Memory>
    requires { word ≤ 2 ^ 18 }
    ensures { OnOk result (words.new.items ≡ words.old.items ++ map word_of (op_words (λ p. word) 0 0 0 (o.Code 0) 0 0 0 rd)) }
{
    let address = 65_536 + 4 * word;
    let low = small(rd, address % 65_536);
    let high = Instr::Movk {
        rd,
        imm: Bits::new(address / 65_536),
        half: Bits::new(1),
    };
    push_all(words, &[low, high])
}

#[inline(never)]
fn push_set(words: &mut Vec<u32>, r: Registers, unless: Cond) -> Result<(), Memory>
    ensures { OnOk result (words.new.items ≡ words.old.items ++ map word_of (against r.a r.b ∷ Csinc r.d 31 31 unless ∷ [])) }
{
    push_all(words, &[against(r.a, r.b), one_unless(r.d, unless)])
}

#[inline(never)]
fn push_is_tag(words: &mut Vec<u32>, r: Registers, level: u32) -> Result<(), Memory>
    requires { level < 2 ^ 12 }
    ensures { OnOk result (words.new.items ≡ words.old.items ++ map word_of (op_words (λ p. 0) 0 0 0 (o.IsTag level) r.a r.b r.c r.d)) }
{
    let x = register(16);
    let level = load(x, r.a, level);
    push_all(words, &[level, against(x, r.b), one_unless(r.d, Cond::Ne)])
}

#[inline(never)]
fn push_guard_tag(words: &mut Vec<u32>, r: Registers, level: u32) -> Result<(), Memory>
    requires { level < 2 ^ 12 }
    ensures { OnOk result (words.new.items ≡ words.old.items ++ map word_of (op_words (λ p. 0) 0 0 0 (o.GuardTag level) r.a r.b r.c r.d)) }
{
    let x = register(16);
    let level = load(x, r.a, level);
    push_all(words, &[level, against(x, r.b), skips(Cond::Eq), brk(3)])
}

#[inline(never)]
fn push_span(words: &mut Vec<u32>, r: Registers) -> Result<(), Memory>
    ensures { OnOk result (words.new.items ≡ words.old.items ++ map word_of (op_words (λ p. 0) 0 0 0 o.Span r.a r.b r.c r.d)) }
{
    let (x, y) = (register(16), register(17));
    let below = [ones(x), lsl(x, x, r.a)];
    push_all(words, &below)?;
    push_all(words, &[small(y, 63), sub(y, y, r.b)])?;
    let above = [ones(r.d), lsr(r.d, r.d, y), and(r.d, r.d, x)];
    push_all(words, &above)
}

#[inline(never)]
fn push_div(words: &mut Vec<u32>, r: Registers) -> Result<(), Memory>
    ensures { OnOk result (words.new.items ≡ words.old.items ++ map word_of (op_words (λ p. 0) 0 0 0 o.Div r.a r.b r.c r.d)) }
{
    let (x, y) = (register(16), register(17));
    push_tested(words, r.b, 0, Cond::Gt, 4)?;
    let quotient = Instr::Sdiv {
        rd: x,
        rn: r.a,
        rm: r.b,
    };
    let rest = Instr::Msub {
        rd: y,
        rn: x,
        rm: r.b,
        ra: r.a,
    };
    let lower = Instr::AddReg {
        rd: r.d,
        rn: x,
        rm: y,
        shift: Shift::Asr,
        by: Bits::new(63),
    };
    push_all(words, &[quotient, rest, lower])
}

#[inline(never)]
fn push_mod(words: &mut Vec<u32>, r: Registers) -> Result<(), Memory>
    ensures { OnOk result (words.new.items ≡ words.old.items ++ map word_of (op_words (λ p. 0) 0 0 0 o.Mod r.a r.b r.c r.d)) }
{
    let (x, y) = (register(16), register(17));
    push_tested(words, r.b, 0, Cond::Gt, 4)?;
    let quotient = Instr::Sdiv {
        rd: x,
        rn: r.a,
        rm: r.b,
    };
    let rest = Instr::Msub {
        rd: x,
        rn: x,
        rm: r.b,
        ra: r.a,
    };
    let more = Instr::AndReg {
        rd: y,
        rn: r.b,
        rm: x,
        shift: Shift::Asr,
        by: Bits::new(63),
    };
    push_all(words, &[quotient, rest, more, add(r.d, x, y)])
}

#[inline(never)]
fn push_is_pointer(words: &mut Vec<u32>, r: Registers, level: u32) -> Result<(), Memory>
    requires { level < 2 ^ 12 }
    ensures { OnOk result (words.new.items ≡ words.old.items ++ map word_of (op_words (λ p. 0) 0 0 0 (o.IsPtr level) r.a r.b r.c r.d)) }
{
    let x = register(16);
    let nil = Instr::Cbz {
        rt: r.a,
        to: Bits::new(3),
    };
    push_all(words, &[small(x, 0), nil, load(x, r.a, 0)])?;
    push_all(
        words,
        &[
            load(x, x, level),
            against(x, r.b),
            one_unless(r.d, Cond::Ne),
        ],
    )
}

#[inline(never)]
fn push_guard(words: &mut Vec<u32>, r: Registers, level: u32) -> Result<(), Memory>
    requires { level < 2 ^ 12 }
    ensures { OnOk result (words.new.items ≡ words.old.items ++ map word_of (op_words (λ p. 0) 0 0 0 (o.GuardPtr level) r.a r.b r.c r.d)) }
{
    let x = register(16);
    push_all(words, &[skips_nonzero(r.a), brk(2), load(x, r.a, 0)])?;
    push_all(
        words,
        &[load(x, x, level), against(x, r.b), skips(Cond::Eq), brk(3)],
    )
}

#[inline(never)]
fn push_new(words: &mut Vec<u32>, r: Registers) -> Result<(), Memory>
    ensures { OnOk result (words.new.items ≡ words.old.items ++ map word_of (op_words (λ p. 0) 0 0 0 o.New r.a r.b r.c r.d)) }
{
    let (x, heap, cells) = (register(16), register(21), register(22));
    push_all(words, &[against(cells, r.a), skips(Cond::Hs), brk(10)])?;
    push_all(
        words,
        &[sub(cells, cells, r.a), store(r.c, heap, 0), moved(x, heap)],
    )?;
    push_all(words, &[add(heap, heap, r.b), moved(r.d, x)])
}
