//! What commands tell and write, in rows. Expected values come from the language's rules and an independent compiler.

use crate::calls::{Wanted, answer, call, call_through, done, refused, wants};
use std::alloc::AllocGlobal;
use std::process::Abort;
use std::test::Fail;
use trc_base::{Files, MeetGate, MemFiles, MemSource};

/// Calls that are refused: their words, the status and the line.
const REFUSED: [(&[&str], u8, &str); 12] = [
    (&["walk", "M.Mod"], 1, "trc: usage\n"),
    (&[], 1, "trc: usage\n"),
    (&["run", "M.Mod", "--regs", "3"], 1, "trc: usage\n"),
    (&["bulk", "7", "0"], 1, "trc: usage\n"),
    (&["run", "M.Mod", "--steps", "x"], 1, "trc: usage\n"),
    (&["batch", "LIST", "L"], 1, "trc: usage\n"),
    (&["batch"], 1, "trc: usage\n"),
    (
        &["run", "--steps", "1", "Missing.Mod"],
        4,
        "trc: no file Missing.Mod\n",
    ),
    (
        &["build", "M.Mod", "Missing.Mod"],
        4,
        "trc: no file Missing.Mod\n",
    ),
    (&["exec", "Missing.Mod"], 4, "trc: no file Missing.Mod\n"),
    (&["exec", "M.Mod"], 8, "trc: not an image: 61 at 0\n"),
    (&["run", "M.Mod", "--steps", "0"], 7, "trc: steps spent\n"),
];

#[test]
fn words_and_files_are_refused(rt: HostRuntime) -> Result<(), Fail> {
    let mut files = answer(&rt, Vec::new(rt.alloc()))?;
    for (words, status, line) in REFUSED {
        wants(&rt, words, &mut files, b"", refused(status, line))?;
    }
    let help =
        "trc run|build|elf|traces|exec|bulk|audit|object|link|mean|both|batch|help\n--policy --traces --regs --jobs --steps --from --notes --turns\n";
    wants(&rt, &["help"], &mut files, b"", done(help))
}

#[test]
fn steps_are_spent(rt: HostRuntime) -> Result<(), Fail> {
    let mut files = answer(&rt, Vec::new(rt.alloc()))?;
    for (steps, status, err) in [("16", 0, ""), ("15", 7, "trc: steps spent\n")] {
        let wanted = Wanted {
            status,
            out: "42\n",
            err,
        };
        let words = ["run", "M.Mod", "--steps", steps];
        wants(&rt, &words, &mut files, b"", wanted)?;
    }
    Ok(())
}

#[test]
fn what_is_built_is_executed(rt: HostRuntime) -> Result<(), Fail> {
    let mut files = answer(&rt, Vec::new(rt.alloc()))?;
    let build = ["build", "M.img", "M.Mod"];
    wants(&rt, &build, &mut files, b"", done(""))?;
    for words in [["exec", "M.img"], ["run", "M.Mod"]] {
        wants(&rt, &words, &mut files, b"", done("42\n"))?;
    }
    Ok(())
}

#[test]
fn devices_fail(rt: HostRuntime) -> Result<(), Fail> {
    let mut files = answer(&rt, vec![in rt.alloc(); 1u64, 3]?)?;
    let mut input = MemSource::new(Vec::new(rt.alloc()), 1, Vec::new(rt.alloc()));
    let short = call(
        &rt,
        &["run", "M.Mod"],
        &mut files,
        &mut input,
        1,
        Vec::new(rt.alloc()),
    )?;
    assert_eq!(rt; short.outcome.status, 4);
    assert_eq!(rt; short.out.as_slice(), b"4".as_slice());
    assert_eq!(rt;
        short.err.as_slice(),
        b"trc: write fault on output\n".as_slice()
    );

    wants(
        &rt,
        &["run", "M.Mod"],
        &mut files,
        b"",
        refused(4, "trc: read fault on files\n"),
    )?;
    wants(
        &rt,
        &["build", "M.img", "M.Mod"],
        &mut files,
        b"",
        refused(4, "trc: write fault on files\n"),
    )?;
    assert_eq!(rt; files.count(), 2);

    let first = call(
        &rt,
        &["help"],
        &mut files,
        &mut input,
        1000,
        vec![in rt.alloc(); 0u64]?,
    )?;
    assert_eq!(rt; first.outcome.status, 4);
    assert_eq!(rt; first.out.len(), 0);
    Ok(())
}

/// Two modules, the second of which imports the first, and one that writes what it mustn't.
fn two_modules<R: AllocGlobal>(rt: &R) -> Result<MemFiles, Fail> {
    let mut files = MemFiles::new(rt.alloc(), Vec::new(rt.alloc()));
    files.put(
        "A.Mod",
        b"MODULE A; VAR x*: INTEGER; PROCEDURE p*(n: INTEGER): INTEGER; BEGIN x := x + n RETURN x * 2 END p; END A.",
    )?;
    files.put(
        "B.Mod",
        b"MODULE B; IMPORT Out, A; BEGIN Out.Int(A.p(3), 0); Out.Int(A.p(4), 4); Out.Ln END B.",
    )?;
    files.put(
        "C.Mod",
        b"MODULE C;\n IMPORT A;\nBEGIN\n A.x := 1\nEND C.\n",
    )?;
    Ok(files)
}

#[test]
fn limits_are_told(rt: HostRuntime) -> Result<(), Fail> {
    let mut files = two_modules(&rt)?;
    let mut words = ["A.Mod"; 66];
    words[0] = "run";
    let modules = refused(3, "trc: limit 56 Modules at 0\n");
    wants(&rt, words.as_slice(), &mut files, b"", modules)?;
    let twice = refused(2, "trc: A.Mod:1:8: error 36 Redeclared\n");
    wants(&rt, &words[..65], &mut files, b"", twice)?;
    files.put("L.Mod", vec![in rt.alloc(); b' '; 1_048_577]?.as_slice())?;
    let source = refused(3, "trc: limit 55 Source at 1\n");
    wants(&rt, &["run", "A.Mod", "L.Mod"], &mut files, b"", source)?;
    files.put("G.Mod", b"MODULE G; VAR a: ARRAY 1048576 OF BYTE; END G.")?;
    let globals = refused(3, "trc: limit 53 Globals at 0\n");
    wants(&rt, &["build", "A", "G.Mod"], &mut files, b"", globals)?;
    wants(
        &rt,
        &["exec", "A"],
        &mut files,
        b"",
        refused(4, "trc: no file A\n"),
    )
}

#[test]
fn a_batch_is_answered(rt: HostRuntime) -> Result<(), Fail> {
    let mut files = two_modules(&rt)?;
    files.put(
        "LIST",
        b"0 A.Mod B.Mod\n1 A.Mod C.Mod\n0 Missing.Mod\n1 A.Mod\n",
    )?;
    let replies = "0 0 0 6\n6  14\n0 1 4 0\n1 0 2 0\n1 1 0 0\n";
    wants(&rt, &["batch", "LIST"], &mut files, b"", done(replies))
}

#[test]
fn batches_are_refused(rt: HostRuntime) -> Result<(), Fail> {
    let mut files = two_modules(&rt)?;
    let missing = refused(4, "trc: no file L\n");
    wants(&rt, &["batch", "L"], &mut files, b"", missing)?;
    files.put("L", b"0 A.Mod\n2 A.Mod\n")?;
    let bad = refused(1, "trc: bad line 2\n");
    wants(&rt, &["batch", "L"], &mut files, b"", bad)?;
    files.put("L", "0 A.Mod\n".repeat(rt.alloc(), 1025)?.as_bytes())?;
    let jobs = refused(3, "trc: limit 69 Jobs at 0\n");
    wants(&rt, &["batch", "L"], &mut files, b"", jobs)?;
    files.put("L", vec![in rt.alloc(); b'0'; 1_048_577]?.as_slice())?;
    let long = refused(3, "trc: limit 55 Source at 0\n");
    wants(&rt, &["batch", "L"], &mut files, b"", long)?;
    files.put("S", vec![in rt.alloc(); b' '; 1_048_576]?.as_slice())?;
    files.put("L", "0 S\n".repeat(rt.alloc(), 65)?.as_bytes())?;
    let sources = refused(3, "trc: limit 70 JobBytes at 0\n");
    wants(&rt, &["batch", "L"], &mut files, b"", sources)
}

// Two workers are inside at once, each at a trace of its own.
#[test]
fn two_inside(rt: HostRuntime) -> Result<(), Fail> {
    let text = "MODULE T; IMPORT Out;
        PROCEDURE P; BEGIN Out.Int(1, 0) END P;
        PROCEDURE Q; BEGIN Out.Int(2, 0) END Q;
        BEGIN P; Q END T.";
    let mut files = MemFiles::new(rt.alloc(), Vec::new(rt.alloc()));
    files.put("T.Mod", text.as_bytes())?;
    let mut input = MemSource::new(Vec::new(rt.alloc()), 5, Vec::new(rt.alloc()));
    let gate = MeetGate::new(1_000_000);
    let seen = call_through(
        &rt,
        &["run", "T.Mod", "--jobs", "2"],
        &mut files,
        &mut input,
        100,
        Vec::new(rt.alloc()),
        &gate,
    )?;
    assert_eq!(rt; seen.outcome.status, 0);
    assert_eq!(rt; seen.out.as_slice(), "12".as_bytes());
    assert!(rt; gate.met());
    Ok(())
}
