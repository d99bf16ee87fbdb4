//! Ends as words.

use crate::words::{Words, push_numbers};
use lir_core::{Leave, Numbers};
use outside::Memory;
use std::alloc::{AllocError, Global};

/// The end that comes next.
pub fn end_of(alloc: Global, words: &mut Words) -> Result<Leave, Memory> {
    if words.takes("jump") {
        let to = words.or_zero();
        let args = Numbers::from_slice(alloc, words.numbers(alloc)?.as_slice())?;
        return Ok(Leave::Jump { to, args });
    }
    if words.takes("branch") {
        return Ok(Leave::Branch {
            cond: u8::try_from(words.or_zero()).unwrap_or(u8::MAX),
            a: words.or_zero(),
            b: words.or_zero(),
            yes: words.or_zero(),
            no: words.or_zero(),
        });
    }
    if words.takes("nonzero") {
        return Ok(Leave::Nonzero {
            a: words.or_zero(),
            yes: words.or_zero(),
            no: words.or_zero(),
        });
    }
    if words.takes("return") {
        return Ok(Leave::Return(words.small()));
    }
    let _ = words.takes("trap");
    let kind = u16::try_from(words.or_zero()).unwrap_or(u16::MAX);
    Ok(Leave::Trap(kind))
}

/// Adds an end, behind a blank.
pub fn push_end(text: &mut String, end: &Leave) -> Result<(), AllocError> {
    match end {
        Leave::Jump { to, args } => {
            write!(text, " jump {to}")?;
            push_numbers(text, args.as_slice())
        }
        Leave::Branch {
            cond,
            a,
            b,
            yes,
            no,
        } => write!(text, " branch {cond} {a} {b} {yes} {no}"),
        Leave::Nonzero { a, yes, no } => write!(text, " nonzero {a} {yes} {no}"),
        Leave::Return(Some(value)) => write!(text, " return {value}"),
        Leave::Return(None) => text.push_str(" return"),
        Leave::Trap(kind) => write!(text, " trap {kind}"),
    }
}
