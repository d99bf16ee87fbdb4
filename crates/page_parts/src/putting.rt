//! What stands between two texts.

ghost use Rattle.std.specs.Prelude.{◌≡◌, ◌++◌, OnOk};
ghost use Rattle.std.specs.Fmt.{decimal};
ghost use Rattle.html_text.specs.Escapes.{escaped};

use html_text::{put_escaped, put_number, put_text};
use std::alloc::{AllocError, Global};

/// Appends a number in decimal between two texts.
pub fn put_number_between(
    alloc: Global,
    text: &mut Vec<u8>,
    before: &[u8],
    number: u64,
    behind: &[u8],
) -> Result<(), AllocError>
    ensures { OnOk result (text.new.items ≡ text.old.items ++ (before.now ++ (decimal number ++ behind.now))) }
{
    put_text(text, before)?;
    put_number(alloc, text, number)?;
    put_text(text, behind)
}

/// Appends bytes between two texts, as text that HTML can't be broken by.
pub fn put_escaped_between(
    text: &mut Vec<u8>,
    before: &[u8],
    bytes: &[u8],
    behind: &[u8],
) -> Result<(), AllocError>
    ensures { OnOk result (text.new.items ≡ text.old.items ++ (before.now ++ (escaped bytes.now ++ behind.now))) }
{
    put_text(text, before)?;
    put_escaped(text, bytes)?;
    put_text(text, behind)
}
