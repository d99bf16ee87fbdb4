//! Lines in which repeated parts stand once.

use std::alloc::{AllocError, Global};

/// Adds a part, with this number in place of `#`.
fn push_copy(text: &mut String, part: &str, number: u32) -> Result<(), AllocError> {
    let mut pieces = part.split('#');
    text.push_str(pieces.next().unwrap_or(""))?;
    for piece in pieces {
        write!(text, "{number}")?;
        text.push_str(piece)?;
    }
    Ok(())
}

/// Adds what stands behind a bracket: copies of the part that a number asks for, and the rest; or else the bracket as well.
fn push_bracket(text: &mut String, behind: &str) -> Result<(), AllocError> {
    if let Some((count, rest)) = behind.split_once('*') {
        if let (Ok(count), Some((part, rest))) = (count.parse::<u32>(), rest.split_once(']')) {
            for number in 0..count {
                push_copy(text, part, number)?;
            }
            return text.push_str(rest);
        }
    }
    text.push_str("[")?;
    text.push_str(behind)
}

/// A line with its copies: `[9*part]` stands for so many copies of a part without brackets, with their numbers, from 0, in place
/// of `#`. Any other bracket stays.
pub fn spread(alloc: Global, short: &str) -> Result<String, AllocError> {
    let mut text = String::new(alloc);
    let mut pieces = short.split('[');
    text.push_str(pieces.next().unwrap_or(""))?;
    for behind in pieces {
        push_bracket(&mut text, behind)?;
    }
    Ok(text)
}
