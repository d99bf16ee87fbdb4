//! What the modules of each line of its input come to: the judgement on them, the procedures that they become, or their image.
//!
//! A line is some words, and then the modules' texts (`vector_texts`). The words say what is told of the modules:
//!
//! | Words | Told |
//! |---|---|
//! | `check NAME` | `legal`, the first fault, or that a text is too long (`checking`) |
//! | `lower NAME` | the procedures, or the limit that is passed first (`lowering`) |
//! | `every NAME` | the image of each choice, by one worker and by several (`choices`) |
//! | `POLICY BUILDER REGISTERS` | the image of this choice, or why there is none (`images`) |
//! | `spread` before any of these | the same of the line that `vector_texts::spread` makes of the rest |
//!
//! The stored input are small modules that keep or break each rule, legal modules with a symbol or a declaration changed, modules
//! that use the whole language, and programs at limits and beyond; what is wanted comes from another compiler, written in Python
//! from the rules alone (`bench/module_vectors.py` makes both where it is).
#![tactic(auto)]

mod checking;
mod choices;
mod images;
mod lowering;
mod words;

use checking::verdict;
use choices::every_image;
use images::image_line;
use lowering::procedure_lines;
use outside::Memory;
use std::alloc::Global;
use std::io;
use std::io::{BufRead, BufReader};
use std::sync::Wait;
use std::thread::Threads;
use vector_texts::{spread, texts_of};

/// What a line asks for is told of its modules.
fn told<R: Threads + Wait + Sync>(rt: &R, alloc: Global, line: &str) -> Result<String, Memory> {
    let texts = texts_of(alloc, line)?;
    let Some(words) = line.split('\t').next() else {
        return Ok(String::new(alloc));
    };
    match words.split(' ').next() {
        Some("check") => verdict(alloc, texts.as_slice()),
        Some("lower") => procedure_lines(alloc, texts.as_slice()),
        Some("every") => every_image(rt, alloc, texts.as_slice()),
        _ => image_line(rt, alloc, words, texts.as_slice()),
    }
}

/// What a line asks for, or the line that a short one stands for.
fn answer<R: Threads + Wait + Sync>(rt: &R, alloc: Global, line: &str) -> Result<String, Memory> {
    match line.strip_prefix("spread ") {
        Some(short) => told(rt, alloc, spread(alloc, short)?.as_str()),
        None => told(rt, alloc, line),
    }
}

fn main(rt: HostRuntime) -> io::Result<()> {
    for line in BufReader::new(rt.alloc(), rt.reader())?.lines(rt.alloc()) {
        match answer(&rt, rt.alloc(), line?.as_str()) {
            Ok(text) => println!(rt; "{text}")?,
            Err(Memory) => println!(rt; "out of memory")?,
        }
    }
    Ok(())
}
