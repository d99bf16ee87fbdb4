//! A list in rows, and a row in words.

ghost use Rattle.std.specs.Prelude.{◌≡◌, map, IfOk};
ghost use Rattle.batch_list.specs.Form.{rows_of, words_of};

use std::alloc::{AllocError, Global};

/// The parts of a list at its line ends.
pub(crate) fn rows(alloc: Global, text: &[u8]) -> Result<Vec<&[u8]>, AllocError>
    ensures { IfOk result (λ rows. map (λ row. row.now) rows.items ≡ rows_of text.now) }
{
    text.split(|byte| *byte == b'\n').collect(alloc)
}

/// The parts of a row at its blanks.
pub(crate) fn words(alloc: Global, row: &[u8]) -> Result<Vec<&[u8]>, AllocError>
    ensures { IfOk result (λ words. map (λ word. word.now) words.items ≡ words_of row.now) }
{
    row.split(|byte| *byte == b' ').collect(alloc)
}
