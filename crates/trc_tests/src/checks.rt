//! What `check` and `explain` tell. Places come from an independent compiler.

use crate::calls::{Wanted, answer, call, done, refused, wants};
use std::alloc::AllocGlobal;
use std::process::Abort;
use std::sync::Wait;
use std::test::Fail;
use std::thread::Threads;
use trc_base::{MemFiles, MemSource};
use trc_cli::Cause;

/// The module that breaks a rule on its second line, in a file whose name is escaped in JSON.
const BROKEN: &str = "MODULE M; VAR b: BOOLEAN;\nBEGIN b := count END M.\n";

/// The line for people of it.
const LINE: &str = "trc: a\"b\\.Mod:2:12: error 30 Unknown\n";

/// The line of JSON of it.
const JSON: &str =
    "{\"file\":\"a\\\"b\\\\.Mod\",\"line\":2,\"column\":12,\"end_column\":17,\"number\":30,\"name\":\"Unknown\",\"text\":\"a name isn't declared, or a record has no such field\"}\n";

#[test]
fn a_legal_module_is_passed_over(rt: HostRuntime) -> Result<(), Fail> {
    let mut files = answer(&rt, Vec::new(rt.alloc()))?;
    for words in [
        ["check", "M.Mod", "--format", "json"],
        ["check", "M.Mod", "--format", "text"],
    ] {
        wants(&rt, &words, &mut files, b"", done(""))?;
    }
    wants(&rt, &["check", "M.Mod"], &mut files, b"", done(""))
}

#[test]
fn a_broken_rule_is_told(rt: HostRuntime) -> Result<(), Fail> {
    let mut files = MemFiles::new(rt.alloc(), Vec::new(rt.alloc()));
    files.put("a\"b\\.Mod", BROKEN.as_bytes())?;
    let words = ["check", "a\"b\\.Mod"];
    wants(&rt, &words, &mut files, b"", refused(2, LINE))?;
    let wanted = Wanted {
        status: 2,
        out: JSON,
        err: LINE,
    };
    let words = ["check", "a\"b\\.Mod", "--format=json"];
    wants(&rt, &words, &mut files, b"", wanted)
}

#[test]
fn files_and_words_are_refused(rt: HostRuntime) -> Result<(), Fail> {
    let mut files = answer(&rt, Vec::new(rt.alloc()))?;
    let words = ["check", "M.Mod", "Missing.Mod", "--format", "json"];
    wants(
        &rt,
        &words,
        &mut files,
        b"",
        refused(4, "trc: no file Missing.Mod\n"),
    )?;
    wants(
        &rt,
        &["check", "M.Mod", "--format", "xml"],
        &mut files,
        b"",
        refused(1, "trc: usage\n"),
    )?;
    wants(&rt, &["check"], &mut files, b"", refused(1, "trc: usage\n"))?;
    for word in ["0", "13x", "15", "71x", "256", "266", "Usage", ""] {
        let words = ["explain", word];
        wants(&rt, &words, &mut files, b"", refused(1, "trc: usage\n"))?;
    }
    wants(
        &rt,
        &["explain", "10", "11"],
        &mut files,
        b"",
        refused(1, "trc: usage\n"),
    )
}

/// Fails where other bytes begin the output of a call that ends well, or end it.
fn tells<R: Threads + Wait + AllocGlobal + Abort + Sync>(
    rt: &R,
    words: &[&str],
    front: &str,
    end: &str,
) -> Result<(), Fail> {
    let mut files = MemFiles::new(rt.alloc(), Vec::new(rt.alloc()));
    let mut input = MemSource::new(Vec::new(rt.alloc()), 1, Vec::new(rt.alloc()));
    let none = Vec::new(rt.alloc());
    let seen = call(rt, words, &mut files, &mut input, 10_000, none)?;
    assert!(rt; matches!(seen.outcome.cause, Cause::Done));
    assert!(rt; seen.out.as_slice().starts_with(front.as_bytes()));
    assert!(rt; seen.out.as_slice().ends_with(end.as_bytes()));
    Ok(())
}

#[test]
fn numbers_are_explained(rt: HostRuntime) -> Result<(), Fail> {
    let broken =
        "fault 37 EndName: the name behind END is another\n\nA module and a procedure end with their own name. The place is the name behind END.\n\nM.Mod:\n    MODULE M; END N.\n\n$ trc run M.Mod\ntrc: M.Mod:1:15: error 37 EndName\n\nMended:\n\nM.Mod:\n    MODULE M; END M.\n";
    tells(&rt, &["explain", "37"], broken, broken)?;
    tells(
        &rt,
        &["explain", "0010"],
        "fault 10 BadByte: ",
        "    BEGIN NEW(p) END M.\n",
    )?;
    tells(
        &rt,
        &["explain", "usage"],
        "trc COMMAND WORDS [OPTIONS]\n",
        " are written\n",
    )?;
    tells(
        &rt,
        &["explain"],
        "fault 10 BadByte: a byte begins no symbol\n",
        "object rule 84 TooLong: the file has over 67,108,864 bytes\n",
    )
}

#[test]
fn the_output_fails_while_it_is_told(rt: HostRuntime) -> Result<(), Fail> {
    for words in [
        ["check", "a\"b\\.Mod", "--format=json"].as_slice(),
        ["explain", "37"].as_slice(),
    ] {
        let mut files = MemFiles::new(rt.alloc(), Vec::new(rt.alloc()));
        files.put("a\"b\\.Mod", BROKEN.as_bytes())?;
        let mut input = MemSource::new(Vec::new(rt.alloc()), 1, Vec::new(rt.alloc()));
        let mut failing = Vec::new(rt.alloc());
        failing.push(1)?;
        let seen = call(&rt, words, &mut files, &mut input, 10_000, failing)?;
        assert!(rt; seen.outcome.status == 4);
        assert!(rt; seen.err.as_slice() == b"trc: write fault on output\n".as_slice());
    }
    Ok(())
}
