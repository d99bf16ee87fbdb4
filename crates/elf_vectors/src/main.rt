//! Makes images, writes their native programs, compares these with those that are wanted, byte by byte, and runs them on the machine.
//!
//! The stored input is made by another program (`bench/elf_rows.py`, where the other compiler is): the native programs of some
//! examples, and of an image with each row of the table. Lines, with words and bytes in hexadecimal:
//!
//! - `runtime {WORD}`: the words of the runtime;
//! - `image NAME FLAGS GLOBALS FRAME`, `code {WORD}`, `constants {BYTE}`: an image;
//! - `head {BYTE}`: the first bytes of its program, which are followed by zeros up to the place of the words;
//! - `words {WORD}`: the words before the runtime; behind this come the image's constants. Prints the name and how many bytes
//!   the program has, or at which byte it differs;
//! - `run {BYTE}`: runs the program on an input, on the machine with its services in place of Linux's calls (`running`). Prints
//!   what it writes to output and errors.
#![tactic(auto)]

mod images;
mod running;

use elf_file::write_elf;
use images::{Sizes, image_of};
use running::written;
use std::alloc::{AllocError, Global};
use std::io;
use std::io::{BufRead, BufReader};

/// Where the words stand in a program's file.
const WORDS_BEGIN: usize = 65_536;

/// What was read so far.
#[derive(Drop)]
struct Wanted {
    runtime: Vec<u8>,
    name: String,
    sizes: Sizes,
    code: Vec<u32>,
    constants: Vec<u8>,
    head: Vec<u8>,
}

/// The bytes that a line has.
fn bytes_of(alloc: Global, text: &str) -> Result<Vec<u8>, AllocError> {
    let mut bytes = Vec::new(alloc);
    for word in text.split_whitespace() {
        bytes.push(u8::from_str_radix(word, 16).unwrap_or(0))?;
    }
    Ok(bytes)
}

/// The words that a line has.
fn words_of(alloc: Global, text: &str) -> Result<Vec<u32>, AllocError> {
    let mut words = Vec::new(alloc);
    for word in text.split_whitespace() {
        words.push(u32::from_str_radix(word, 16).unwrap_or(0))?;
    }
    Ok(words)
}

/// The bytes of the words that a line has.
fn word_bytes_of(alloc: Global, text: &str) -> Result<Vec<u8>, AllocError> {
    let mut bytes = Vec::new(alloc);
    for word in &words_of(alloc, text)? {
        bytes.extend_from_slice(&word.to_le_bytes())?;
    }
    Ok(bytes)
}

/// A number that a line has.
fn number(word: Option<&str>) -> u32 {
    word.unwrap_or("").parse::<u32>().unwrap_or(0)
}

/// The native program of the image that was read; nothing where it isn't in form.
fn program(alloc: Global, wanted: &Wanted) -> Result<Option<Vec<u8>>, AllocError> {
    let code = Vec::from_slice(alloc, &wanted.code)?;
    let constants = Vec::from_slice(alloc, &wanted.constants)?;
    match image_of(alloc, wanted.sizes, code, constants) {
        Some(image) => Ok(Some(write_elf(alloc, &image)?)),
        None => Ok(None),
    }
}

/// The file that is wanted.
fn file_of(alloc: Global, wanted: &Wanted, words: &str) -> Result<Vec<u8>, AllocError> {
    let mut file = Vec::new(alloc);
    file.extend_from_slice(&wanted.head)?;
    file.resize(WORDS_BEGIN, 0)?;
    file.extend_from_slice(&word_bytes_of(alloc, words)?)?;
    file.extend_from_slice(&wanted.runtime)?;
    file.extend_from_slice(&wanted.constants)?;
    Ok(file)
}

/// What the program comes to: how many bytes, or where it differs.
fn answer(alloc: Global, wanted: &Wanted, words: &str) -> Result<String, AllocError> {
    let name = wanted.name.as_str();
    let Some(made) = program(alloc, wanted)? else {
        return format!(in alloc; "{name} is no image");
    };
    let file = file_of(alloc, wanted, words)?;
    if made.as_slice() == file.as_slice() {
        return format!(in alloc; "{name} {}", made.len());
    }
    let same = made.iter().zip(file.iter()).take_while(|(a, b)| a == b);
    format!(in alloc; "{name} differs at {}", same.count())
}

/// What the program writes.
fn output(alloc: Global, wanted: &Wanted, input: &str) -> io::Result<Vec<u8>> {
    let nothing = Vec::new(alloc);
    let Some(file) = program(alloc, wanted)? else {
        return Ok(nothing);
    };
    let end = file.len().saturating_sub(wanted.constants.len());
    let words = file.get(WORDS_BEGIN..end).unwrap_or(&[]);
    let input = bytes_of(alloc, input)?;
    match written(alloc, wanted.sizes, &wanted.constants, words, &input) {
        Ok(Some(bytes)) => Ok(bytes),
        _ => Ok(nothing),
    }
}

fn main(rt: HostRuntime) -> io::Result<()> {
    let alloc = rt.alloc();
    let mut wanted = Wanted {
        runtime: Vec::new(alloc),
        name: String::new(alloc),
        sizes: Sizes {
            flags: 0,
            globals: 0,
            frame: 0,
        },
        code: Vec::new(alloc),
        constants: Vec::new(alloc),
        head: Vec::new(alloc),
    };
    for line in BufReader::new(alloc, rt.reader())?.lines(alloc) {
        let line = line?;
        let (kind, rest) = line.as_str().split_once(' ').unwrap_or(("", ""));
        match kind {
            "runtime" => wanted.runtime = word_bytes_of(alloc, rest)?,
            "image" => {
                let mut words = rest.split_whitespace();
                wanted.name = String::from_str(alloc, words.next().unwrap_or(""))?;
                wanted.sizes = Sizes {
                    flags: number(words.next()),
                    globals: number(words.next()),
                    frame: number(words.next()),
                };
            }
            "code" => wanted.code = words_of(alloc, rest)?,
            "constants" => wanted.constants = bytes_of(alloc, rest)?,
            "head" => wanted.head = bytes_of(alloc, rest)?,
            "run" => rt.write_all(&output(alloc, &wanted, rest)?)?,
            _ => println!(rt; "{}", answer(alloc, &wanted, rest)?)?,
        }
    }
    Ok(())
}
