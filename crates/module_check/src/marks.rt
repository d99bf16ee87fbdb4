//! How much of a line is marked.

ghost use Rattle.std.specs.Prelude.{◌≡◌};
ghost use Rattle.module_check.specs.Marks.{is_letter, letters, marked};

/// Whether a byte is a letter or a digit.
fn is_letter(byte: u8) -> bool
    ensures { result ≡ is_letter byte }
{
    byte.is_ascii_digit() || byte.is_ascii_uppercase() || byte.is_ascii_lowercase()
}

/// How many letters and digits stand at a text's beginning.
fn letters(text: &[u8]) -> usize
    ensures { result ≡ letters text.now }
{
    let mut count = 0;
    for byte in text {
        if !is_letter(*byte) {
            return count;
        }
        count += 1;
    }
    count
}

/// How many bytes are marked at a text's beginning: the letters and digits there, and at least one byte.
pub(crate) fn marked(text: &[u8]) -> usize
    ensures { result ≡ marked text.now }
{
    letters(text).max(1)
}
