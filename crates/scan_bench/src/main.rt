//! Scans a made text, so that `bench/scan.sh` can time it.
//!
//! The arguments are the text's shape (`program`, `digits` or `comments`), its size in bytes (at most 1 MiB),
//! and how many times it is scanned. It writes how many bytes and symbols the text has. Its stored run scans a text of
//! 1 MiB, the most that the scanner takes.
#![tactic(auto)]

mod made;

use made::{Shape, text};
use ob_scan::scan;
use std::{env, io};

/// The most bytes that a text may have.
const LARGEST: usize = 1048576;

/// The shape of this name.
fn shape_of(name: &str) -> Option<Shape> {
    match name {
        "program" => Some(Shape::Program),
        "digits" => Some(Shape::Digits),
        "comments" => Some(Shape::Comments),
        _ => None,
    }
}

fn main(rt: HostRuntime) -> io::Result<()> {
    let mut words = env::args(&rt)?;
    words.next();
    let (Some(name), Some(size), Some(times)) = (words.next(), words.next(), words.next()) else {
        return println!(rt; "usage: scan_bench program|digits|comments BYTES TIMES");
    };
    let (Some(shape), Ok(size), Ok(times)) = (
        shape_of(name.as_str()),
        size.as_str().parse::<usize>(),
        times.as_str().parse::<u32>(),
    ) else {
        return println!(rt; "scan_bench: a shape and two numbers are wanted");
    };
    if size > LARGEST {
        return println!(rt; "scan_bench: at most {LARGEST} bytes");
    }
    let text = text(rt.alloc(), shape, size)?;
    let mut count = 0;
    for _ in 0..times {
        match scan(rt.alloc(), &text) {
            Ok(symbols) => {
                count = symbols.len();
            }
            Err(fault) => {
                return println!(rt; "{fault}");
            }
        }
    }
    let bytes = text.len();
    println!(rt; "{name} {bytes}: {count} symbols")
}
