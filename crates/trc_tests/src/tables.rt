//! The table of `compare`, and the page of `show`: what refuses them, how many rows there are and how each ends, and what is written.
//! Expected values come from the language's rules.

use crate::calls::{answer, call, done, refused, wants};
use std::alloc::AllocGlobal;
use std::sync::Wait;
use std::test::Fail;
use std::thread::Threads;
use trc_base::{Files, MemFiles, MemSource};

/// How many choices are compared.
const ROWS: usize = 14;

/// Calls that are refused: their words, the status and the line.
const REFUSED: [(&[&str], u8, &str); 13] = [
    (&["compare"], 1, "trc: usage\n"),
    (
        &["compare", "M.Mod", "--policy", "plain"],
        1,
        "trc: usage\n",
    ),
    (&["compare", "M.Mod", "--regs", "8"], 1, "trc: usage\n"),
    (&["compare", "M.Mod", "--jobs", "65"], 1, "trc: usage\n"),
    (&["compare", "M.Mod", "--steps", "-1"], 1, "trc: usage\n"),
    (&["compare", "Missing.Mod"], 4, "trc: no file Missing.Mod\n"),
    (
        &["compare", "M.Mod", "M.Mod"],
        2,
        "trc: M.Mod:1:8: error 36 Redeclared\n",
    ),
    (&["show", "page.html"], 1, "trc: usage\n"),
    (
        &["show", "page.html", "M.Mod", "--against", "none"],
        1,
        "trc: usage\n",
    ),
    (
        &["show", "page.html", "M.Mod", "--regs", "17"],
        1,
        "trc: usage\n",
    ),
    (
        &["show", "page.html", "M.Mod", "--jobs", "2"],
        1,
        "trc: usage\n",
    ),
    (
        &["show", "page.html", "M.Mod", "Missing.Mod"],
        4,
        "trc: no file Missing.Mod\n",
    ),
    (
        &["show", "page.html", "M.Mod", "M.Mod"],
        2,
        "trc: M.Mod:1:8: error 36 Redeclared\n",
    ),
];

#[test]
fn tables_and_pages_are_refused(rt: HostRuntime) -> Result<(), Fail> {
    let mut files = answer(&rt, Vec::new(rt.alloc()))?;
    for (words, status, line) in REFUSED {
        wants(&rt, words, &mut files, b"", refused(status, line))?;
    }
    let none = refused(4, "trc: no file page.html\n");
    wants(&rt, &["exec", "page.html"], &mut files, b"", none)
}

/// Makes a call that ends well, and fails where its table hasn't a line of names and a row for each choice that ends so.
fn tells_rows<R: Threads + Wait + AllocGlobal + Sync>(
    rt: &R,
    words: &[&str],
    files: &mut MemFiles,
    input: &[u8],
    end: &str,
) -> Result<(), Fail> {
    let bytes = Vec::from_slice(rt.alloc(), input)?;
    let mut source = MemSource::new(bytes, 64, Vec::new(rt.alloc()));
    let seen = call(rt, words, files, &mut source, 4096, Vec::new(rt.alloc()))?;
    if seen.outcome.status != 0 {
        return Err(Fail::new(seen.outcome.status));
    }
    let mut rows: usize = 0;
    for line in seen.out.as_slice().split(|byte| *byte == b'\n') {
        if line.ends_with(end.as_bytes()) && !line.is_empty() {
            rows = rows.saturating_add(1);
        }
    }
    if rows != ROWS || !seen.out.as_slice().starts_with(b"policy ") {
        return Err(Fail::new(rows));
    }
    Ok(())
}

#[test]
fn each_choice_has_a_row(rt: HostRuntime) -> Result<(), Fail> {
    let mut files = answer(&rt, Vec::new(rt.alloc()))?;
    tells_rows(&rt, &["compare", "M.Mod"], &mut files, b"", " ended")?;
    let words = ["compare", "M.Mod", "--jobs", "1", "--steps", "0"];
    tells_rows(&rt, &words, &mut files, b"", " spent")?;
    files.put(
        "T.Mod",
        b"MODULE T; VAR a: ARRAY 3 OF INTEGER; i: INTEGER; BEGIN i := 3; a[i] := 1 END T.",
    )?;
    tells_rows(&rt, &["compare", "T.Mod"], &mut files, b"", " trapped-1")
}

#[test]
fn each_choice_has_the_input(rt: HostRuntime) -> Result<(), Fail> {
    let mut files = MemFiles::new(rt.alloc(), Vec::new(rt.alloc()));
    files.put(
        "I.Mod",
        b"MODULE I; IMPORT In; VAR c: CHAR; BEGIN In.Char(c); ASSERT(In.Done & (c = \"x\")) END I.",
    )?;
    let words = ["compare", "I.Mod"];
    tells_rows(&rt, &words, &mut files, b"x", " ended")?;
    tells_rows(&rt, &words, &mut files, b"y", " trapped-5")?;
    tells_rows(&rt, &words, &mut files, b"", " trapped-5")?;
    let long = vec![in rt.alloc(); b'x'; 1_048_577]?;
    let much = refused(3, "trc: input too long\n");
    wants(&rt, &words, &mut files, long.as_slice(), much)
}

#[test]
fn a_page_is_written(rt: HostRuntime) -> Result<(), Fail> {
    let mut files = answer(&rt, Vec::new(rt.alloc()))?;
    let show = ["show", "one.html", "M.Mod"];
    wants(&rt, &show, &mut files, b"", done(""))?;
    let beside = ["show", "two.html", "M.Mod", "--against", "plain"];
    wants(&rt, &beside, &mut files, b"", done(""))?;
    let one = files.read(rt.alloc(), "one.html", 1_000_000)?;
    let two = files.read(rt.alloc(), "two.html", 1_000_000)?;
    if !one.starts_with(b"<!DOCTYPE html>") || one.len() >= two.len() {
        return Err(Fail::new(one.len()));
    }
    Ok(())
}
