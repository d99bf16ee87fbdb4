//! Classes of bytes, and how far a text stays in one.

ghost use Rattle.std.specs.Prelude.{◌≡◌, ℕ, ◌≤◌, List, ◌∷◌, length, drop, true, false};
ghost use Rattle.ob_scan.specs.Words.{is_letter, is_letter_or_digit, is_digit, is_hexadecimal, is_quotable, is_two, begins_with};
ghost use Rattle.ob_scan.specs.Steps.{Passing, in_class};

/// Whether this byte stands here.
pub fn has_byte(bytes: &[u8], at: usize, byte: u8) -> bool
    requires { at ≤ length bytes.now }
    ensures { result ≡ begins_with byte (drop at bytes.now) }
{
    at < bytes.len() && bytes[at] == byte
}

/// Whether these two bytes stand here.
pub fn has_two(bytes: &[u8], at: usize, first: u8, second: u8) -> bool
    requires { at ≤ length bytes.now }
    ensures { result ≡ is_two first second (drop at bytes.now) }
{
    if has_byte(bytes, at, first) {
        has_byte(bytes, at + 1, second)
    } else {
        false
    }
}

/// Whether each byte is a letter or a digit: a name's bytes are asked one by one, and a table answers at once.
const NAME_BYTES: [bool; 256] = [
    false, false, false, false, false, false, false, false, false, false, false, false, false,
    false, false, false, false, false, false, false, false, false, false, false, false, false,
    false, false, false, false, false, false, false, false, false, false, false, false, false,
    false, false, false, false, false, false, false, false, false, true, true, true, true, true,
    true, true, true, true, true, false, false, false, false, false, false, false, true, true,
    true, true, true, true, true, true, true, true, true, true, true, true, true, true, true, true,
    true, true, true, true, true, true, true, true, false, false, false, false, false, false, true,
    true, true, true, true, true, true, true, true, true, true, true, true, true, true, true, true,
    true, true, true, true, true, true, true, true, true, false, false, false, false, false, false,
    false, false, false, false, false, false, false, false, false, false, false, false, false,
    false, false, false, false, false, false, false, false, false, false, false, false, false,
    false, false, false, false, false, false, false, false, false, false, false, false, false,
    false, false, false, false, false, false, false, false, false, false, false, false, false,
    false, false, false, false, false, false, false, false, false, false, false, false, false,
    false, false, false, false, false, false, false, false, false, false, false, false, false,
    false, false, false, false, false, false, false, false, false, false, false, false, false,
    false, false, false, false, false, false, false, false, false, false, false, false, false,
    false, false, false, false, false, false, false, false, false, false, false, false, false,
    false, false, false, false, false, false, false, false, false, false,
];

/// Whether a byte is a letter or a digit.
fn is_name_byte(b: u8) -> bool
    ensures { result ≡ is_letter_or_digit b }
{
    NAME_BYTES[usize::from(b)]
}

/// Whether a byte is a decimal digit.
pub fn is_digit_byte(b: u8) -> bool
    ensures { result ≡ is_digit b }
{
    b >= b'0' && b < b'9' + 1
}

/// Whether a byte is a letter of ASCII.
pub fn is_letter_byte(b: u8) -> bool
    ensures { result ≡ is_letter b }
{
    is_name_byte(b) && !is_digit_byte(b)
}

/// Whether a byte is a digit or a letter A to F.
fn is_hexadecimal_byte(b: u8) -> bool
    ensures { result ≡ is_hexadecimal b }
{
    if is_digit_byte(b) {
        true
    } else {
        b >= b'A' && b < b'F' + 1
    }
}

/// Whether a byte may stand between quotes.
fn is_quotable_byte(b: u8) -> bool
    ensures { result ≡ is_quotable b }
{
    b != b'"' && b != b'\n' && b != b'\r'
}

/// A class of bytes of which words are made.
#[derive(Clone, Copy)]
pub enum Class {
    /// Letters and digits.
    Name,
    /// Decimal digits.
    Decimal,
    /// Digits and the letters A to F.
    Hexadecimal,
    /// What may stand between quotes.
    Quotable,
}

impl Class {
    /// Whether a byte is in this class.
    fn has(self, b: u8) -> bool
        ensures { result ≡ in_class self b }
    {
        match self {
            Class::Name => is_name_byte(b),
            Class::Decimal => is_digit_byte(b),
            Class::Hexadecimal => is_hexadecimal_byte(b),
            Class::Quotable => is_quotable_byte(b),
        }
    }
}

/// The place after the bytes of a class.
pub fn class_end(bytes: &[u8], from: usize, class: Class) -> usize
    requires { from ≤ length bytes.now }
    ensures passing { Passing (in_class class) (drop from bytes.now) (drop result bytes.now) }
    ensures range { (from ≤ result) × (result ≤ length bytes.now) }
    ensures stop { (x : ℕ) (y : List ℕ) → drop result bytes.now ≡ x ∷ y → in_class class x ≡ false }
{
    let mut i = from;
    'bytes: while i < bytes.len() {
        if class.has(bytes[i]) {
            i += 1;
        } else {
            return i;
        }
    }
    i
}
