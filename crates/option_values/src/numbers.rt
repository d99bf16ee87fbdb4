//! Numbers in words.

ghost use Rattle.std.specs.Prelude.{◌≡◌, ◌≤◌, IfSome};
ghost use Rattle.std.specs.List.{list_all};
ghost use Rattle.option_values.specs.Numbers.{is_digit, is_number, number_between};

/// Whether these are decimal digits.
fn are_digits(bytes: &[u8]) -> bool
    ensures { result ≡ list_all is_digit bytes.now }
{
    for byte in bytes {
        if !byte.is_ascii_digit() {
            return false;
        }
    }
    true
}

/// Whether a text is 1 to 19 decimal digits.
fn is_number(text: &str) -> bool
    ensures { result ≡ is_number text.now }
{
    let bytes = text.as_bytes();
    !bytes.is_empty() && bytes.len() <= 19 && are_digits(bytes)
}

/// The number that a text spells in 1 to 19 decimal digits, leading zeros among them, where it is `least` to `most`.
pub(crate) fn number_between(least: u64, most: u64, text: &str) -> Option<u64>
    ensures value { result ≡ number_between least most text.now }
    ensures least { IfSome result (λ number. least ≤ number) }
    ensures most { IfSome result (λ number. number ≤ most) }
{
    if !is_number(text) {
        return None;
    }
    let Ok(number) = text.parse::<u64>() else {
        return None;
    };
    if least <= number && number <= most {
        Some(number)
    } else {
        None
    }
}
