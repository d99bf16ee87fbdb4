//! Scans each line of its input as a text, and prints the text's symbols or its first fault.
//!
//! In a line `\n`, `\r`, `\\` and `\xHH`, with two hexadecimal digits, stand for one byte each; other bytes stand for
//! themselves. What is wanted was made by another scanner, in Python (`bench/scan_vectors.py`).
#![tactic(auto)]

use ob_scan::{ScanFault, scan};
use std::alloc::{AllocError, Global};
use std::io;
use std::io::{BufRead, BufReader};

/// The most bytes that the scanner takes.
const MOST: usize = 1_048_576;

/// The value of a hexadecimal digit, in small letters.
fn digit_of(byte: u8) -> u8 {
    match byte {
        b'0'..=b'9' => byte - b'0',
        b'a'..=b'f' => byte - b'a' + 10,
        _ => 0,
    }
}

/// The text that a line stands for.
fn text_of(alloc: Global, line: &[u8]) -> Result<Vec<u8>, AllocError> {
    let mut text = Vec::new(alloc);
    let mut bytes = line.iter();
    while let Some(byte) = bytes.next() {
        let stands_for = match *byte {
            b'\\' => match bytes.next() {
                Some(b'n') => b'\n',
                Some(b'r') => b'\r',
                Some(b'x') => {
                    let high = bytes.next().map_or(0, |b| digit_of(*b));
                    let low = bytes.next().map_or(0, |b| digit_of(*b));
                    high.wrapping_mul(16).wrapping_add(low)
                }
                _ => b'\\',
            },
            other => other,
        };
        text.push(stands_for)?;
    }
    Ok(text)
}

fn main(rt: HostRuntime) -> io::Result<()> {
    for line in BufReader::new(rt.alloc(), rt.reader())?.lines(rt.alloc()) {
        let text = text_of(rt.alloc(), line?.as_str().as_bytes())?;
        if text.len() > MOST {
            return println!(rt; "too long");
        }
        match scan(rt.alloc(), &text) {
            Ok(symbols) => {
                for symbol in &symbols {
                    print!(rt; "{symbol:?} ")?;
                }
                println!(rt; "{} symbols", symbols.len())?;
            }
            Err(ScanFault::Fault { number, at }) => println!(rt; "rule {number} at {at}")?,
            Err(ScanFault::Memory) => println!(rt; "out of memory")?,
        }
    }
    Ok(())
}
