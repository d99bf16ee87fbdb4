//! The pages of two small modules: each is made over the host's files, and held against the page that is stored beside its module.
//! The stored pages open in a browser as they are.

use crate::calls::{call, words_of};
use anyhow::Result;
use std::alloc::AllocGlobal;
use std::io::Print;
use std::sync::Wait;
use std::thread::Threads;
use trc_base::{Files, Sink};

/// The words of each call behind `show page.html`, and the page that it must write.
const PAGES: [(&str, &str); 3] = [
    ("Power.Mod", "Power.html"),
    ("Fold.Mod --policy bottomup --regs 4", "Fold.html"),
    ("Fold.Mod --regs 4 --against bottomup", "FoldBeside.html"),
];

/// The most bytes of a page here.
const MOST: usize = 1_048_576;

/// Makes the page of these words in the file `page.html`, and gives the status with which the call ends.
fn show<R: Threads + Wait + AllocGlobal + Sync, F: Files, O: Sink, E: Sink>(
    rt: &R,
    text: &str,
    files: &mut F,
    out: &mut O,
    told: &mut E,
) -> Result<u8> {
    let text = format!(in rt.alloc(); "show page.html {text}")?;
    let words = words_of(rt.alloc(), text.as_str())?;
    let none = Vec::new(rt.alloc());
    Ok(call(rt, words.as_slice(), none, files, out, told))
}

/// The first byte in which two texts differ, if they do.
fn difference(one: &[u8], other: &[u8]) -> Option<usize> {
    for (at, byte) in one.iter().enumerate() {
        if other.get(at) != Some(byte) {
            return Some(at);
        }
    }
    if one.len() < other.len() {
        return Some(one.len());
    }
    None
}

/// Makes each page over these files and sinks, and prints the status and whether the page is the stored one.
pub(crate) fn print_pages<
    R: Threads + Wait + AllocGlobal + Sync + Print,
    F: Files,
    O: Sink,
    E: Sink,
>(rt: &R, files: &mut F, out: &mut O, told: &mut E) -> Result<()> {
    for (text, stored) in PAGES {
        let status = show(rt, text, files, out, told)?;
        let page = files.read(rt.alloc(), "page.html", MOST)?;
        let wanted = files.read(rt.alloc(), stored, MOST)?;
        match difference(page.as_slice(), wanted.as_slice()) {
            None => println!(rt; "{text}: status {status}, the page {stored}")?,
            Some(at) => println!(rt; "{text}: status {status}, differs from {stored} at {at}")?,
        }
    }
    Ok(())
}
