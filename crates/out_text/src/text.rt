//! A number's text in a buffer of its own.

ghost use Rattle.std.specs.Prelude.{◌≡◌, ◌-◌, ◌+◌, ◌≤◌, ◌++◌, length, take};
ghost use Rattle.out_text.specs.Text.{int_text, counted_width};

use itoa::Buffer;
use std::marker::Model;

/// The most bytes that a text has.
const MOST: usize = 255;

/// The text of one number.
#[derive(Drop)]
pub struct IntText {
    bytes: [u8; MOST],
    len: usize,
}

impl Model for IntText {
    ghost use Rattle.std.specs.Prelude.{List, ℕ, take, ◌≤◌};

    ghost Value = { List ℕ };

    ghost view = { λ t. take t.len t.bytes };

    ghost invariant = { λ t. t.len ≤ 255 };
}

impl IntText {
    /// The text of `value` for the field width `width`. Both are 64-bit numbers that are read as signed ones
    /// in two's complement. A negative width counts as 0, and one over 255 as 255.
    pub fn new(value: u64, width: u64) -> Self
        ensures { result ≡ int_text value width }
    {
        let mut buffer = Buffer::new();
        let digits = buffer.format(value.cast_signed()).as_bytes();
        let mut bytes = [b' '; MOST];
        let from = blanks(width, digits.len());
        put(&mut bytes, from, digits);
        IntText {
            bytes,
            len: from + digits.len(),
        }
    }

    /// The text's bytes.
    pub fn as_slice(&self) -> &[u8]
        ensures { result.now ≡ self.now }
    {
        &self.bytes[..self.len]
    }
}

/// How many blanks stand before a text of `len` bytes.
fn blanks(width: u64, len: usize) -> usize
    ensures { result ≡ counted_width width - len }
{
    let width = if width < 1 << 63 {
        width.min(MOST as u64) as usize
    } else {
        0
    };
    width.saturating_sub(len)
}

/// Puts the digits at a place of the bytes.
fn put(bytes: &mut [u8; MOST], from: usize, digits: &[u8])
    requires { from + length digits.now ≤ 255 }
    ensures { take (from + length digits.now) bytes.new ≡ take from bytes.old ++ digits.now }
{
    bytes[from..from + digits.len()].copy_from_slice(digits);
}
