//! What `object` writes and `link` tells, in rows. Expected values come from the form of objects and an independent compiler.

use crate::calls::{call, done, holds, refused, wants};
use std::alloc::AllocGlobal;
use std::process::Abort;
use std::sync::Wait;
use std::test::Fail;
use std::thread::Threads;
use trc_base::{Files, MemFiles, MemSource};

/// Modules, of which the second imports the first, and the last is none.
const MODULES: [(&str, &[u8]); 4] = [
    (
        "A.Mod",
        b"MODULE A; VAR x*: INTEGER; PROCEDURE P*; BEGIN x := 42 END P; END A.",
    ),
    (
        "B.Mod",
        b"MODULE B; IMPORT A, Out; BEGIN A.P; Out.Int(A.x, 0); Out.Ln END B.",
    ),
    ("E.Mod", b"MODULE E; END E."),
    ("M.Mod", b"MODULE M; BEGIN x END M."),
];

/// Calls that write the objects of these modules, and other objects of the second.
const OBJECTS: [&[&str]; 6] = [
    &["object", "a", "A.Mod"],
    &["object", "b", "A.Mod", "B.Mod"],
    &["object", "c", "A.Mod", "B.Mod", "--regs", "8"],
    &["object", "p", "A.Mod", "B.Mod", "--policy", "plain"],
    &["object", "u", "A.Mod", "B.Mod", "--traces", "uni"],
    &["object", "e", "E.Mod"],
];

/// Files with the modules and the objects.
fn with_objects<R: Threads + Wait + AllocGlobal + Sync>(rt: &R) -> Result<MemFiles, Fail> {
    let mut files = MemFiles::new(rt.alloc(), Vec::new(rt.alloc()));
    for (name, text) in MODULES {
        files.put(name, text)?;
    }
    for words in OBJECTS {
        wants(rt, words, &mut files, b"", done(""))?;
    }
    Ok(files)
}

#[test]
fn linked_objects_are_what_is_built(rt: HostRuntime) -> Result<(), Fail> {
    let mut files = with_objects(&rt)?;
    wants(&rt, &["link", "O", "a", "b"], &mut files, b"", done(""))?;
    let built = ["build", "I", "A.Mod", "B.Mod"];
    wants(&rt, &built, &mut files, b"", done(""))?;
    let image = files.read(rt.alloc(), "I", 1000)?;
    assert_eq!(rt; image.len(), 384);
    holds(&rt, &mut files, "O", &image)?;
    wants(&rt, &["exec", "O"], &mut files, b"", done("42\n"))
}

/// Calls over those files, the first hundred bytes of an object in the file x, and an object with a byte more in y; they are refused.
const REFUSED: [(&[&str], u8, &str); 20] = [
    (&["object", "O"], 1, "trc: usage\n"),
    (&["object", "O", "A.Mod", "--steps", "9"], 1, "trc: usage\n"),
    (&["link", "O"], 1, "trc: usage\n"),
    (&["link", "O", "a", "--regs", "16"], 1, "trc: usage\n"),
    (&["object", "O", "F.Mod"], 4, "trc: no file F.Mod\n"),
    (&["link", "O", "a", "f"], 4, "trc: no file f\n"),
    (&["link", "O", "x", "f"], 4, "trc: no file f\n"),
    (
        &["object", "O", "A.Mod", "M.Mod"],
        2,
        "trc: M.Mod:1:17: error 30 Unknown\n",
    ),
    (&["link", "O", "x"], 8, "trc: not an object: 80 at 100\n"),
    (
        &["link", "O", "a", "x"],
        8,
        "trc: not an object: 80 at 100\n",
    ),
    (
        &["link", "O", "x", "A.Mod"],
        8,
        "trc: not an object: 80 at 100\n",
    ),
    (&["link", "O", "A.Mod"], 8, "trc: not an object: 81 at 0\n"),
    (&["link", "O", "y"], 8, "trc: not an object: 83 at 216\n"),
    (&["link", "O", "a", "c"], 8, "trc: other choice at 1\n"),
    (&["link", "O", "a", "p"], 8, "trc: other choice at 1\n"),
    (&["link", "O", "a", "b", "u"], 8, "trc: other choice at 2\n"),
    (
        &["link", "O", "b", "a"],
        2,
        "trc: b:1:18: error 38 ImportOrder\n",
    ),
    (
        &["link", "O", "a", "a"],
        2,
        "trc: a:1:8: error 36 Redeclared\n",
    ),
    (&["link", "O", "e", "a"], 10, "trc: unsound 1 0 0\n"),
    (&["link", "O", "a", "e"], 10, "trc: unsound 2 0 0\n"),
];

#[test]
fn objects_are_refused(rt: HostRuntime) -> Result<(), Fail> {
    let mut files = with_objects(&rt)?;
    let object = files.read(rt.alloc(), "a", 1000)?;
    files.put("x", object.get(0..100).unwrap_or(&[]))?;
    let mut longer = files.read(rt.alloc(), "e", 1000)?;
    longer.push(0)?;
    files.put("y", longer.as_slice())?;
    files.put("O", b"before")?;
    for (words, status, line) in REFUSED {
        wants(&rt, words, &mut files, b"", refused(status, line))?;
        holds(&rt, &mut files, "O", b"before")?;
    }
    Ok(())
}

#[test]
fn at_most_64_objects_are_linked(rt: HostRuntime) -> Result<(), Fail> {
    let mut files = with_objects(&rt)?;
    let mut words = vec![in rt.alloc(); "a"; 67]?;
    words[0] = "link";
    words[1] = "O";
    let many = refused(3, "trc: limit 56 Modules at 0\n");
    wants(&rt, words.as_slice(), &mut files, b"", many)?;
    words.truncate(66);
    let twice = refused(2, "trc: a:1:8: error 36 Redeclared\n");
    wants(&rt, words.as_slice(), &mut files, b"", twice)
}

/// The status of a call of `link` on an object with these bytes, which leaves the file O as it was.
fn status_of<R: Threads + Wait + AllocGlobal + Sync>(
    rt: &R,
    files: &mut MemFiles,
    object: &[u8],
) -> Result<u8, Fail> {
    files.put("z", object)?;
    let mut input = MemSource::new(Vec::new(rt.alloc()), 5, Vec::new(rt.alloc()));
    let none = Vec::new(rt.alloc());
    let seen = call(rt, &["link", "O", "z"], files, &mut input, 1000, none)?;
    holds(rt, files, "O", b"before")?;
    Ok(seen.outcome.status)
}

#[test]
fn objects_with_a_byte_changed_are_refused(rt: HostRuntime) -> Result<(), Fail> {
    let mut files = with_objects(&rt)?;
    files.put("O", b"before")?;
    let object = files.read(rt.alloc(), "e", 1000)?;
    assert_eq!(rt; object.len(), 216);
    let mut counts = [0u32; 16];
    for at in 0..object.len() {
        let mut changed = Vec::from_slice(rt.alloc(), object.as_slice())?;
        changed[at] ^= 255;
        let status = status_of(&rt, &mut files, changed.as_slice())?;
        if let Some(count) = counts.get_mut(status as usize) {
            *count = count.saturating_add(1);
        }
    }
    // Faults of the text, bytes that are no object, and results that aren't sound.
    assert_eq!(rt; (counts[2], counts[8], counts[10]), (16, 68, 132));
    Ok(())
}

#[test]
fn objects_that_are_cut_are_refused(rt: HostRuntime) -> Result<(), Fail> {
    let mut files = with_objects(&rt)?;
    files.put("O", b"before")?;
    let object = files.read(rt.alloc(), "e", 1000)?;
    for most in 0..object.len() {
        let front = object.get(0..most).unwrap_or(&[]);
        files.put("z", front)?;
        let line = format!(in rt.alloc(); "trc: not an object: 80 at {most}\n")?;
        let short = refused(8, line.as_str());
        wants(&rt, &["link", "O", "z"], &mut files, b"", short)?;
        holds(&rt, &mut files, "O", b"before")?;
    }
    Ok(())
}

#[test]
fn an_edited_text_is_linked_where_its_results_fit(rt: HostRuntime) -> Result<(), Fail> {
    let mut files = with_objects(&rt)?;
    let mut object = files.read(rt.alloc(), "a", 1000)?;
    let (four, name) = (24 + 52, 24 + 59);
    assert_eq!(rt; object.get(four), Some(&b'4'));
    object[four] = b'3';
    files.put("z", object.as_slice())?;
    wants(&rt, &["link", "O", "z", "b"], &mut files, b"", done(""))?;
    wants(&rt, &["exec", "O"], &mut files, b"", done("32\n"))?;
    assert_eq!(rt; object.get(name), Some(&b'P'));
    object[name] = b'Q';
    files.put("z", object.as_slice())?;
    let fault = refused(2, "trc: z:1:60: error 37 EndName\n");
    wants(&rt, &["link", "O", "z", "b"], &mut files, b"", fault)
}
