//! Repetitions in examples.

use anyhow::Result;
use std::alloc::Global;

/// The most repetitions in one text.
const MOST: usize = 20;

/// What a repetition holds, for the time of this number.
fn put_once(text: &mut String, content: &str, number: &str) -> Result<()> {
    let mut first = true;
    for piece in content.split('%') {
        if !first {
            text.push_str(number)?;
        }
        text.push_str(piece)?;
        first = false;
    }
    Ok(())
}

/// A text with its last repetition written out, where it has one.
fn with_last(alloc: Global, text: &str) -> Result<Option<String>> {
    let Some((before, repetition)) = text.rsplit_once('@') else {
        return Ok(None);
    };
    let Some((digits, inner)) = repetition.split_once('[') else {
        return Ok(None);
    };
    let Some((content, behind)) = inner.split_once(']') else {
        return Ok(None);
    };
    let mut all = String::from_str(alloc, before)?;
    for time in 0..digits.parse::<u32>().unwrap_or(0) {
        let number = format!(in alloc; "{time}")?;
        put_once(&mut all, content, number.as_str())?;
    }
    all.push_str(behind)?;
    Ok(Some(all))
}

/// A text with all its repetitions written out.
pub(crate) fn written_out(alloc: Global, text: &str) -> Result<String> {
    let mut all = String::from_str(alloc, text)?;
    for _ in 0..MOST {
        match with_last(alloc, all.as_str())? {
            Some(more) => all = more,
            None => break,
        }
    }
    Ok(all)
}

/// What a hexadecimal digit stands for.
fn digit_of(byte: u8) -> Option<u8> {
    match byte {
        b'0'..=b'9' => Some(byte - b'0'),
        b'A'..=b'F' => Some(byte - b'A' + 10),
        _ => None,
    }
}

/// Appends the bytes of hexadecimal digits; what stands between these is passed over.
fn put_hex(bytes: &mut Vec<u8>, digits: &str) -> Result<()> {
    let mut high = None;
    for byte in digits.as_bytes() {
        let Some(digit) = digit_of(*byte) else {
            continue;
        };
        match high {
            None => high = Some(digit),
            Some(first) => {
                let first: u8 = first;
                bytes.push(first.wrapping_mul(16).wrapping_add(digit))?;
                high = None;
            }
        }
    }
    Ok(())
}

/// The bytes of hexadecimal digits, of which those of at most one repetition come so often as it says.
pub(crate) fn bytes_of(alloc: Global, text: &str) -> Result<Vec<u8>> {
    let mut bytes = Vec::new(alloc);
    let Some((before, repetition)) = text.split_once('@') else {
        put_hex(&mut bytes, text)?;
        return Ok(bytes);
    };
    put_hex(&mut bytes, before)?;
    let (digits, inner) = repetition.split_once('[').unwrap_or(("0", ""));
    let (content, behind) = inner.split_once(']').unwrap_or(("", ""));
    let mut repeated = Vec::new(alloc);
    put_hex(&mut repeated, content)?;
    for _ in 0..digits.parse::<u32>().unwrap_or(0) {
        bytes.extend_from_slice(repeated.as_slice())?;
    }
    put_hex(&mut bytes, behind)?;
    Ok(bytes)
}
