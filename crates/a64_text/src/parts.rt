//! The parts of an instruction's text.

ghost use Rattle.std.specs.Prelude.{◌≡◌, ◌<◌, ◌≤◌, ◌^◌, ◌++◌, OnOk, false};
ghost use Rattle.std.specs.Fmt.{decimal, digit_glyph};
ghost use Rattle.a64_text.specs.Operands.{x_text, w_text, sp_text, hex, cond_text, shift_text, high_text, half_text, offset_text, words_back, forward_text, backward_text, target_text, last_digits};

use a64_table::{Bits, Cond, Reg, Shift};
use std::alloc::{AllocError, Global};

/// How a branch's target is told.
#[derive(Clone, Copy)]
pub enum Told {
    /// In bytes from the branch on, as `.+8`.
    Beside,
    /// As the number of its word in the code, where the branch is the word of this number.
    At(u32),
}

// Appends a text, and a number behind it.
fn put_decimal(
    alloc: Global,
    text: &mut Vec<u8>,
    before: &[u8],
    number: u32,
) -> Result<(), AllocError>
    ensures { OnOk result (text.new.items ≡ text.old.items ++ (before.now ++ decimal number)) }
{
    let digits = format!(in alloc; "{number}")?;
    text.extend_from_slice(before)?;
    text.extend_from_slice(digits.as_bytes())?;
    Ok(())
}

/// Appends a register of 64 bits.
pub(crate) fn put_x(alloc: Global, text: &mut Vec<u8>, number: Reg) -> Result<(), AllocError>
    ensures { OnOk result (text.new.items ≡ text.old.items ++ x_text number) }
{
    let number = number.get();
    if number == 31 {
        text.extend_from_slice(b"xzr")
    } else {
        put_decimal(alloc, text, b"x", number)
    }
}

/// Appends the low 32 bits of a register.
pub(crate) fn put_w(alloc: Global, text: &mut Vec<u8>, number: Reg) -> Result<(), AllocError>
    ensures { OnOk result (text.new.items ≡ text.old.items ++ w_text number) }
{
    let number = number.get();
    if number == 31 {
        text.extend_from_slice(b"wzr")
    } else {
        put_decimal(alloc, text, b"w", number)
    }
}

/// Appends a register of 64 bits that may be SP.
pub(crate) fn put_sp(alloc: Global, text: &mut Vec<u8>, number: Reg) -> Result<(), AllocError>
    ensures { OnOk result (text.new.items ≡ text.old.items ++ sp_text number) }
{
    let number = number.get();
    if number == 31 {
        text.extend_from_slice(b"sp")
    } else {
        put_decimal(alloc, text, b"x", number)
    }
}

/// Appends a number in hexadecimal digits.
pub(crate) fn put_hex(alloc: Global, text: &mut Vec<u8>, number: u32) -> Result<(), AllocError>
    ensures { OnOk result (text.new.items ≡ text.old.items ++ hex number) }
{
    let digits = format!(in alloc; "{number:x}")?;
    text.extend_from_slice(b"0x")?;
    text.extend_from_slice(digits.as_bytes())?;
    Ok(())
}

/// Appends the name of a condition.
pub(crate) fn put_cond(text: &mut Vec<u8>, cond: Cond) -> Result<(), AllocError>
    ensures { OnOk result (text.new.items ≡ text.old.items ++ cond_text cond) }
{
    text.extend_from_slice(cond_name(cond))
}

fn cond_name(cond: Cond) -> &'static [u8]
    ensures { result.now ≡ cond_text cond }
{
    match cond {
        Cond::Eq => b"eq",
        Cond::Ne => b"ne",
        Cond::Hs => b"cs",
        Cond::Lo => b"cc",
        Cond::Mi => b"mi",
        Cond::Pl => b"pl",
        Cond::Vs => b"vs",
        Cond::Vc => b"vc",
        Cond::Hi => b"hi",
        Cond::Ls => b"ls",
        Cond::Ge => b"ge",
        Cond::Lt => b"lt",
        Cond::Gt => b"gt",
        Cond::Le => b"le",
        Cond::Al => b"al",
    }
}

/// Appends how and by how much a register is shifted.
pub(crate) fn put_shift(
    alloc: Global,
    text: &mut Vec<u8>,
    shift: Shift,
    by: Bits<6>,
) -> Result<(), AllocError>
    ensures { OnOk result (text.new.items ≡ text.old.items ++ shift_text shift by) }
{
    let by = by.get();
    match shift {
        Shift::Lsl => {
            if by == 0 {
                Ok(())
            } else {
                put_decimal(alloc, text, b", lsl #", by)
            }
        }
        Shift::Lsr => put_decimal(alloc, text, b", lsr #", by),
        Shift::Asr => put_decimal(alloc, text, b", asr #", by),
    }
}

/// Appends whether 12 bits count 4096s.
pub(crate) fn put_high(text: &mut Vec<u8>, high: bool) -> Result<(), AllocError>
    ensures { OnOk result (text.new.items ≡ text.old.items ++ high_text high) }
{
    if high {
        text.extend_from_slice(b", lsl #12")
    } else {
        Ok(())
    }
}

/// Appends which half word 16 bits are.
pub(crate) fn put_half(alloc: Global, text: &mut Vec<u8>, half: Bits<2>) -> Result<(), AllocError>
    ensures { OnOk result (text.new.items ≡ text.old.items ++ half_text half) }
{
    let half = half.get();
    if half == 0 {
        Ok(())
    } else {
        put_decimal(alloc, text, b", lsl #", half * 16)
    }
}

/// Appends an offset in bytes.
pub(crate) fn put_offset(alloc: Global, text: &mut Vec<u8>, bytes: u32) -> Result<(), AllocError>
    ensures { OnOk result (text.new.items ≡ text.old.items ++ offset_text bytes) }
{
    if bytes == 0 {
        Ok(())
    } else {
        put_decimal(alloc, text, b", #", bytes)
    }
}

fn put_words_back(alloc: Global, text: &mut Vec<u8>, words: u32) -> Result<(), AllocError>
    requires { words < 2 ^ 27 }
    ensures { OnOk result (text.new.items ≡ text.old.items ++ words_back words) }
{
    put_decimal(alloc, text, b".-", words * 4)
}

// Appends a target so many words on.
fn put_forward(alloc: Global, text: &mut Vec<u8>, told: Told, words: u32) -> Result<(), AllocError>
    requires { words < 2 ^ 27 }
    ensures { OnOk result (text.new.items ≡ text.old.items ++ forward_text told words) }
{
    match told {
        Told::Beside => put_decimal(alloc, text, b".+", words * 4),
        Told::At(at) => put_place(alloc, text, u64::from(at) + u64::from(words)),
    }
}

fn put_place(alloc: Global, text: &mut Vec<u8>, place: u64) -> Result<(), AllocError>
    ensures { OnOk result (text.new.items ≡ text.old.items ++ decimal place) }
{
    let digits = format!(in alloc; "{place}")?;
    text.extend_from_slice(digits.as_bytes())
}

// Appends a target so many words back.
fn put_backward(alloc: Global, text: &mut Vec<u8>, told: Told, words: u32) -> Result<(), AllocError>
    requires { words < 2 ^ 27 }
    ensures { OnOk result (text.new.items ≡ text.old.items ++ backward_text told words) }
{
    match told {
        Told::Beside => put_words_back(alloc, text, words),
        Told::At(at) => {
            if words <= at {
                put_place(alloc, text, u64::from(at - words))
            } else {
                put_words_back(alloc, text, words)
            }
        }
    }
}

/// Appends the target of a field of so many values.
pub(crate) fn put_target(
    alloc: Global,
    text: &mut Vec<u8>,
    told: Told,
    values: u32,
    words: u32,
) -> Result<(), AllocError>
    requires below { words < values }
    requires few { values ≤ 2 ^ 26 }
    ensures { OnOk result (text.new.items ≡ text.old.items ++ target_text told values words) }
{
    if words < values / 2 {
        put_forward(alloc, text, told, words)
    } else {
        put_backward(alloc, text, told, values - words)
    }
}

// The hexadecimal digit of a number below 16.
fn digit(number: u32) -> u8
    requires { number < 16 }
    ensures { result ≡ digit_glyph false number }
{
    if number < 10 {
        b'0' + number as u8
    } else {
        b'a' - 10 + number as u8
    }
}

/// Appends the last so many hexadecimal digits of a number.
pub(crate) fn put_last_digits(text: &mut Vec<u8>, count: u32, number: u32) -> Result<(), AllocError>
    requires { count ≤ 8 }
    ensures { OnOk result (text.new.items ≡ text.old.items ++ last_digits count number) }
{
    for left in (0..count).rev() {
        text.push(digit((number >> (4 * left)) % 16))?;
    }
    Ok(())
}
