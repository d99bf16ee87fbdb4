//! Literals of numbers and characters.

ghost use Rattle.std.specs.Prelude.{◌≡◌, ◌+◌, ◌*◌, ◌<◌, ◌≤◌, length, drop, true, slice_index, MatchOption, IfOk, IfErr};
ghost use Rattle.ob_scan.specs.Words.{is_digit, is_hexadecimal, is_all, digit, value_from, signed};
ghost use Rattle.ob_scan.specs.Steps.{Found, Refused};

use crate::classes::{Class, class_end, has_byte, is_digit_byte};
use crate::fault::NoSymbol;
use ob_symbol::Kind;

/// The largest decimal integer.
const LARGEST_INTEGER: u64 = 9223372036854775807;

/// The largest code of a character.
const LARGEST_CHARACTER: u64 = 255;

/// The value of a digit or of a letter A to F.
fn digit_of(b: u8) -> u8
    requires { is_hexadecimal b ≡ true }
    ensures value { result ≡ digit b }
    ensures small { result < 16 }
{
    if is_digit_byte(b) {
        b.saturating_sub(b'0')
    } else {
        b.saturating_sub(b'A' - 10)
    }
}

/// A value with one more digit behind it, if it is at most `most`.
fn value_with(value: u64, base: u64, digit: u64, most: u64) -> Option<u64>
    ensures { MatchOption result (most < value * base + digit) (λ n. (n ≡ value * base + digit) × (n ≤ most)) }
{
    let scaled = value.checked_mul(base)?;
    let sum = scaled.checked_add(digit)?;
    if sum <= most { Some(sum) } else { None }
}

/// The value of digits to a base, if it is at most `most`.
fn value_of(digits: &[u8], base: u64, most: u64) -> Option<u64>
    requires digits { is_all is_hexadecimal digits.now ≡ true }
    requires base { 1 ≤ base }
    ensures { MatchOption result (most < value_from base 0 digits.now) (λ n. (n ≡ value_from base 0 digits.now) × (n ≤ most)) }
{
    let mut value: u64 = 0;
    for b in digits {
        let digit = u64::from(digit_of(*b));
        match value_with(value, base, digit, most) {
            Some(more) => {
                value = more;
            }
            None => return None,
        }
    }
    Some(value)
}

/// A number modulo 2^64 as a signed number.
fn signed_of(n: u64) -> i64
    ensures { result ≡ signed n }
{
    n.cast_signed()
}

/// The number or character that begins with the digit here, and the place after it.
pub fn number(bytes: &[u8], at: usize) -> Result<(Kind, usize), NoSymbol>
    requires inside { at < length bytes.now }
    requires digit { is_digit (slice_index bytes.now at) ≡ true }
    ensures found { IfOk result (λ x. Found (drop at bytes.now) (drop x.1 bytes.now) x.0) }
    ensures range { IfOk result (λ x. (at < x.1) × (x.1 ≤ length bytes.now)) }
    ensures refused { IfErr result (λ e. Refused (drop at bytes.now) e) }
{
    let suffix = class_end(bytes, at + 1, Class::Hexadecimal);
    if has_byte(bytes, suffix, b'H') {
        match value_of(&bytes[at..suffix], 16, u64::MAX) {
            Some(n) => Ok((Kind::Int(signed_of(n)), suffix + 1)),
            None => Err(NoSymbol::NumberTooLarge),
        }
    } else if has_byte(bytes, suffix, b'X') {
        match value_of(&bytes[at..suffix], 16, LARGEST_CHARACTER) {
            Some(code) => Ok((Kind::Char(code as u8), suffix + 1)),
            None => Err(NoSymbol::NumberTooLarge),
        }
    } else {
        let to = class_end(bytes, at + 1, Class::Decimal);
        match value_of(&bytes[at..to], 10, LARGEST_INTEGER) {
            Some(n) => Ok((Kind::Int(signed_of(n)), to)),
            None => Err(NoSymbol::NumberTooLarge),
        }
    }
}
