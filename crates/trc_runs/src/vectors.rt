//! The vectors: the call of each line of the standard input is made over devices in memory, and what is printed is how it ended, what
//! it wrote, and its error line.
//!
//! A line has the words of the call, with a blank between them; then, each behind a tab, the files, as `NAME=TEXT`, or the input,
//! as `<TEXT`. In a text `\n` stands for a line's end, `\t` for a tab, `\\` for a backslash and `\xHH` for the byte with that
//! number; so in what is printed, for each byte that isn't a printable character. A line behind the word `spread` stands for the one
//! that `vector_texts::spread` makes of it. Behind a call of `build`, `audit`, `object` or `link` the bytes of the files
//! that it writes are printed too. The stored input are worked programs, commands with all their options, faults, limits, and the bytes of an image
//! that are cut off and changed, one by one; what is wanted is what another compiler, written in Python from the rules alone,
//! prints of them (`bench/trc_vectors.py` makes both where it is).

use crate::calls::{ROOM, Seen, call_in_memory, words_of};
use anyhow::Result;
use std::alloc::{AllocGlobal, Global};
use std::io::{BufRead, BufReader, Input, Print};
use std::sync::Wait;
use std::thread::Threads;
use trc_base::{Files, MemFiles};
use vector_texts::spread;

/// The value of a hexadecimal digit in lower case; 0 of any other byte.
fn digit(byte: u8) -> u8 {
    match byte {
        b'0'..=b'9' => byte - b'0',
        b'a'..=b'f' => byte - b'a' + 10,
        _ => 0,
    }
}

/// What stands before a byte of a written text.
#[derive(Clone, Copy)]
enum Before {
    Plain,
    Backslash,
    Hexadecimal,
    High(u8),
}

/// The byte that a written one ends, if it ends one, and what stands before the next.
fn read(before: Before, byte: u8) -> (Option<u8>, Before) {
    match before {
        Before::Plain if byte == b'\\' => (None, Before::Backslash),
        Before::Plain => (Some(byte), Before::Plain),
        Before::Backslash => match byte {
            b'n' => (Some(b'\n'), Before::Plain),
            b't' => (Some(b'\t'), Before::Plain),
            b'x' => (None, Before::Hexadecimal),
            other => (Some(other), Before::Plain),
        },
        Before::Hexadecimal => (None, Before::High(digit(byte))),
        Before::High(high) => (Some(high << 4 | digit(byte)), Before::Plain),
    }
}

/// The bytes of a text as it is written.
fn bytes_of(alloc: Global, written: &str) -> Result<Vec<u8>> {
    let mut bytes = Vec::new(alloc);
    let mut before = Before::Plain;
    for byte in written.as_bytes() {
        let (stands, then) = read(before, *byte);
        before = then;
        if let Some(byte) = stands {
            bytes.push(byte)?;
        }
    }
    Ok(bytes)
}

/// A byte as it is written.
fn put_byte(alloc: Global, text: &mut String, byte: u8) -> Result<()> {
    match byte {
        b'\n' => text.push_str("\\n")?,
        b'\t' => text.push_str("\\t")?,
        b'\\' => text.push_str("\\\\")?,
        b' '..=b'~' => text.push(char::from(byte))?,
        _ => text.push_str(format!(in alloc; "\\x{byte:02x}")?.as_str())?,
    }
    Ok(())
}

/// A text as it is written.
fn written(alloc: Global, bytes: &[u8]) -> Result<String> {
    let mut text = String::new(alloc);
    for byte in bytes {
        put_byte(alloc, &mut text, *byte)?;
    }
    Ok(text)
}

/// The call of a line: its words, its files and its input.
#[derive(Drop)]
struct Call {
    words: Vec<String>,
    files: MemFiles,
    input: Vec<u8>,
}

/// The call that a line stands for.
fn call_of(alloc: Global, line: &str) -> Result<Call> {
    let mut parts = line.split('\t');
    let mut call = Call {
        words: words_of(alloc, parts.next().unwrap_or(""))?,
        files: MemFiles::new(alloc, Vec::new(alloc)),
        input: Vec::new(alloc),
    };
    for part in parts {
        if let Some(text) = part.strip_prefix('<') {
            call.input = bytes_of(alloc, text)?;
        } else if let Some((name, text)) = part.split_once('=') {
            call.files.put(name, bytes_of(alloc, text)?.as_slice())?;
        }
    }
    Ok(call)
}

/// What the file of this name has; nothing where it isn't there.
fn held(alloc: Global, name: &str, files: &mut MemFiles) -> Result<String> {
    match files.read(alloc, name, ROOM) {
        Ok(bytes) => written(alloc, bytes.as_slice()),
        Err(_) => Ok(String::new(alloc)),
    }
}

/// The word behind `--notes`, if there is one.
fn notes_name(words: &[String]) -> Option<&str> {
    let at = words.iter().position(|word| word.as_str() == "--notes")?;
    Some(words.get(at + 1)?.as_str())
}

/// What the files have that a call of `build`, `audit`, `object` or `link` writes, with a blank between an image and notes; nothing of
/// any other call.
fn wrote(alloc: Global, words: &[String], files: &mut MemFiles) -> Result<String> {
    let [command, name, ..] = words else {
        return Ok(String::new(alloc));
    };
    if !matches!(command.as_str(), "build" | "audit" | "object" | "link") {
        return Ok(String::new(alloc));
    }
    let image = held(alloc, name.as_str(), files)?;
    match notes_name(words) {
        Some(notes) if command.as_str() == "build" => {
            let notes = held(alloc, notes, files)?;
            Ok(format!(in alloc; "{image} {notes}")?)
        }
        _ => Ok(image),
    }
}

/// What a line's call comes to.
fn told<R: Threads + Wait + AllocGlobal + Sync>(rt: &R, line: &str) -> Result<String> {
    let alloc = rt.alloc();
    let Call {
        words,
        mut files,
        input,
    } = call_of(alloc, line)?;
    let Seen { status, out, err } = call_in_memory(rt, words.as_slice(), input, &mut files)?;
    let told = written(alloc, err.as_slice())?;
    let printed = written(alloc, out.as_slice())?;
    let files = wrote(alloc, words.as_slice(), &mut files)?;
    Ok(format!(in alloc; "{status} {printed} | {told}{files}")?)
}

/// What the call of a line comes to, or of the line that a short one stands for.
fn answer<R: Threads + Wait + AllocGlobal + Sync>(rt: &R, line: &str) -> Result<String> {
    match line.strip_prefix("spread ") {
        Some(short) => told(rt, spread(rt.alloc(), short)?.as_str()),
        None => told(rt, line),
    }
}

/// Prints what the call of each line of the standard input comes to.
pub(crate) fn print_vectors<R: Threads + Wait + AllocGlobal + Sync + Print + Input>(
    rt: &R,
) -> Result<()> {
    for line in BufReader::new(rt.alloc(), rt.reader())?.lines(rt.alloc()) {
        let line = line?;
        let text = answer(rt, line.as_str())?;
        println!(rt; "{text}")?;
    }
    Ok(())
}
