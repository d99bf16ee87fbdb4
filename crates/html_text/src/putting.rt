//! What pages append.

ghost use Rattle.std.specs.Prelude.{◌≡◌, ◌++◌, OnOk};
ghost use Rattle.std.specs.Fmt.{decimal};
ghost use Rattle.html_text.specs.Escapes.{escaped, escaped_byte};

use std::alloc::{AllocError, Global};

/// Appends bytes as they are.
pub fn put_text(text: &mut Vec<u8>, bytes: &[u8]) -> Result<(), AllocError>
    ensures { OnOk result (text.new.items ≡ text.old.items ++ bytes.now) }
{
    text.extend_from_slice(bytes)?;
    Ok(())
}

/// Appends a number in decimal.
pub fn put_number(alloc: Global, text: &mut Vec<u8>, number: u64) -> Result<(), AllocError>
    ensures { OnOk result (text.new.items ≡ text.old.items ++ decimal number) }
{
    let digits = format!(in alloc; "{number}")?;
    text.extend_from_slice(digits.as_bytes())?;
    Ok(())
}

// Appends what stands for a byte.
fn put_byte(text: &mut Vec<u8>, byte: u8) -> Result<(), AllocError>
    ensures { OnOk result (text.new.items ≡ text.old.items ++ escaped_byte byte) }
{
    match byte {
        b'&' => put_text(text, b"&amp;"),
        b'<' => put_text(text, b"&lt;"),
        b'>' => put_text(text, b"&gt;"),
        b'"' => put_text(text, b"&quot;"),
        b'\'' => put_text(text, b"&#39;"),
        b'\t' | b'\n' | b' '..=b'~' => {
            text.push(byte)?;
            Ok(())
        }
        _ => put_text(text, b"&#xFFFD;"),
    }
}

/// Appends bytes as text that HTML can't be broken by.
pub fn put_escaped(text: &mut Vec<u8>, bytes: &[u8]) -> Result<(), AllocError>
    ensures { OnOk result (text.new.items ≡ text.old.items ++ escaped bytes.now) }
{
    for byte in bytes {
        put_byte(text, *byte)?;
    }
    Ok(())
}
