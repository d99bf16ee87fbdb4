//! The text of a word.

ghost use Rattle.std.specs.Prelude.{◌≡◌, ◌++◌, OnOk};
ghost use Rattle.a64_table.specs.Decode.{decode_of};
ghost use Rattle.a64_text.specs.Words.{data_text, read_text, word_text, word_text_at};

use crate::instrs::put_instr;
use crate::parts::{Told, put_last_digits};
use a64_table::decode;
use std::alloc::{AllocError, Global};

// A word that is no instruction's.
fn put_data(text: &mut Vec<u8>, word: u32) -> Result<(), AllocError>
    ensures { OnOk result (text.new.items ≡ text.old.items ++ data_text word) }
{
    text.extend_from_slice(b".word 0x")?;
    put_last_digits(text, 8, word)
}

fn put_read(alloc: Global, text: &mut Vec<u8>, told: Told, word: u32) -> Result<(), AllocError>
    ensures { OnOk result (text.new.items ≡ text.old.items ++ read_text told word (decode_of word)) }
{
    match decode(word) {
        Some(instr) => put_instr(alloc, text, told, &instr),
        None => put_data(text, word),
    }
}

/// Appends the text of a word: that of its instruction, or `.word` and eight digits. Where a branch goes is told in bytes from
/// the word on, as `.+8`.
pub fn put_word(alloc: Global, text: &mut Vec<u8>, word: u32) -> Result<(), AllocError>
    ensures { OnOk result (text.new.items ≡ text.old.items ++ word_text word) }
{
    put_read(alloc, text, Told::Beside, word)
}

/// Appends the text of the word of a number in code. Where a branch goes is told by the number of the target's word.
pub fn put_word_at(alloc: Global, text: &mut Vec<u8>, word: u32, at: u32) -> Result<(), AllocError>
    ensures { OnOk result (text.new.items ≡ text.old.items ++ word_text_at word at) }
{
    put_read(alloc, text, Told::At(at), word)
}
