//! What `build --notes` writes and `audit` tells, in rows. Expected values come from the form of notes and an independent compiler.

use crate::calls::{Wanted, answer, done, holds, refused, wants};
use std::alloc::AllocGlobal;
use std::process::Abort;
use std::sync::Wait;
use std::test::Fail;
use std::thread::Threads;
use trc_base::{Files, MemFiles};

/// The module that does nothing, its image in the file I and its notes in the file N.
fn noted<R: Threads + Wait + AllocGlobal + Sync>(rt: &R) -> Result<MemFiles, Fail> {
    let mut files = MemFiles::new(rt.alloc(), Vec::new(rt.alloc()));
    files.put("E.Mod", b"MODULE E; END E.")?;
    let words = ["build", "I", "E.Mod", "--notes", "N"];
    wants(rt, &words, &mut files, b"", done(""))?;
    Ok(files)
}

#[test]
fn notes_that_were_written_pass(rt: HostRuntime) -> Result<(), Fail> {
    let mut files = noted(&rt)?;
    let notes = files.read(rt.alloc(), "N", 1000)?;
    assert_eq!(rt; notes.len(), 184);
    wants(
        &rt,
        &["audit", "O", "N", "E.Mod"],
        &mut files,
        b"",
        done("sound\n"),
    )?;
    let image = files.read(rt.alloc(), "I", 1000)?;
    holds(&rt, &mut files, "O", &image)?;
    let registers = ["audit", "O", "N", "E.Mod", "--regs", "8"];
    let other = refused(10, "trc: unsound 0 0 0\n");
    wants(&rt, &registers, &mut files, b"", other)
}

/// Audits the notes with another byte at this place, and looks at how the call ended; the image stays as it was.
fn audits_changed<R: Threads + Wait + AllocGlobal + Sync>(
    rt: &R,
    at: usize,
    byte: u8,
    wanted: Wanted<'_>,
) -> Result<(), Fail> {
    let mut files = noted(rt)?;
    let mut notes = files.read(rt.alloc(), "N", 1000)?;
    if let Some(changed) = notes.get_mut(at) {
        *changed = byte;
    }
    files.put("N", notes.as_slice())?;
    files.put("O", b"before")?;
    wants(rt, &["audit", "O", "N", "E.Mod"], &mut files, b"", wanted)?;
    holds(rt, &mut files, "O", b"before")
}

/// A byte of the notes' file that is put at a place, and the status and the line that `audit` then comes to.
const CHANGES: [(usize, u8, u8, &str); 6] = [
    (24, 1, 10, "trc: unsound 0 0 0\n"),
    (0, b'X', 8, "trc: not notes: 71 at 0\n"),
    (8, 2, 8, "trc: not notes: 70 at 184\n"),
    (11, 255, 8, "trc: not notes: 70 at 184\n"),
    (8, 0, 8, "trc: not notes: 73 at 12\n"),
    (12, 1, 10, "trc: unsound 0 0 0\n"),
];

#[test]
fn changed_notes_are_told(rt: HostRuntime) -> Result<(), Fail> {
    for (at, byte, status, line) in CHANGES {
        audits_changed(&rt, at, byte, refused(status, line))?;
    }
    Ok(())
}

/// Calls that are refused over those files, and a module that is no module; they leave no file O.
const REFUSED: [(&[&str], u8, &str); 7] = [
    (&["audit", "O", "N"], 1, "trc: usage\n"),
    (
        &["audit", "O", "N", "E.Mod", "--policy", "plain"],
        1,
        "trc: usage\n",
    ),
    (&["build", "O", "E.Mod", "--notes", "O"], 1, "trc: usage\n"),
    (&["audit", "O", "M", "E.Mod"], 4, "trc: no file M\n"),
    (&["audit", "O", "N", "F.Mod"], 4, "trc: no file F.Mod\n"),
    (
        &["audit", "O", "N", "E.Mod", "M.Mod"],
        2,
        "trc: M.Mod:1:17: error 30 Unknown\n",
    ),
    (&["exec", "O"], 4, "trc: no file O\n"),
];

#[test]
fn audits_are_refused(rt: HostRuntime) -> Result<(), Fail> {
    let mut files = noted(&rt)?;
    files.put("M.Mod", b"MODULE M; BEGIN x END M.")?;
    for (words, status, line) in REFUSED {
        wants(&rt, words, &mut files, b"", refused(status, line))?;
    }
    Ok(())
}

#[test]
fn notes_are_written_behind_the_image(rt: HostRuntime) -> Result<(), Fail> {
    let mut files = answer(&rt, vec![in rt.alloc(); 2u64]?)?;
    let fault = refused(4, "trc: write fault on files\n");
    let words = ["build", "I", "M.Mod", "--notes", "N"];
    wants(&rt, &words, &mut files, b"", fault)?;
    wants(&rt, &["exec", "I"], &mut files, b"", done("42\n"))
}
