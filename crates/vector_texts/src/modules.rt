//! Modules' texts as a line of a program's input has them, and sums of images, for the programs that compare with another
//! compiler.
//!
//! A line has a few words, and then the texts, each behind a tab; in a text, `\n` stands for a line's end, `\t` for a tab and `\\`
//! for a backslash.

use items::Items;
use std::alloc::{AllocError, Global};

/// A text as it is written in a line.
fn text_of(alloc: Global, written: &str) -> Result<Items<u8>, AllocError> {
    let mut text = Vec::new(alloc);
    let mut escaped = false;
    for byte in written.as_bytes() {
        if escaped {
            escaped = false;
            text.push(match *byte {
                b'n' => b'\n',
                b't' => b'\t',
                other => other,
            })?;
        } else if *byte == b'\\' {
            escaped = true;
        } else {
            text.push(*byte)?;
        }
    }
    Ok(Items::from_vec(text))
}

/// The texts of a line, in order.
pub fn texts_of(alloc: Global, line: &str) -> Result<Vec<Items<u8>>, AllocError> {
    let mut texts = Vec::new(alloc);
    for written in line.split('\t').skip(1) {
        texts.push(text_of(alloc, written)?)?;
    }
    Ok(texts)
}

/// A sum over an image's words and constants.
pub fn sum_of(words: &[u32], constants: &[u8]) -> u64 {
    let mut sum: u64 = 0xcbf29ce484222325;
    for word in words {
        sum = (sum ^ u64::from(*word)).wrapping_mul(0x100000001b3);
    }
    for byte in constants {
        sum = (sum ^ u64::from(*byte)).wrapping_mul(0x100000001b3);
    }
    sum
}
