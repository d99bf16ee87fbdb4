//! Constructs that are open in each other, 100 and 101 of them, in rows. Expected places come from an independent compiler.

use std::alloc::AllocGlobal;
use std::process::Abort;
use std::sync::Wait;
use std::test::Fail;
use std::thread::Threads;
use trc_base::{MemFiles, MemSink, MemSource, OpenGate};
use trc_cli::trc;

/// A construct, by what stands before the nest, what opens a part of it, what stands inside, what closes a part and what stands
/// behind; how many parts are 100 constructs; and the column of the first construct too many with one part more.
struct Nest<'a> {
    before: &'a str,
    open: &'a str,
    inside: &'a str,
    close: &'a str,
    behind: &'a str,
    parts: usize,
    column: u32,
}

/// Nests of one-line modules.
const NESTS: [Nest<'static>; 13] = [
    Nest {
        before: "VAR i: INTEGER; BEGIN i := ",
        open: "(",
        inside: "1",
        close: ")",
        behind: "",
        parts: 100,
        column: 138,
    },
    Nest {
        before: "VAR b: BOOLEAN; BEGIN b := ",
        open: "~",
        inside: "b",
        close: "",
        behind: "",
        parts: 100,
        column: 138,
    },
    Nest {
        before: "VAR a: ARRAY 1 OF INTEGER; BEGIN a[0] := ",
        open: "a[",
        inside: "0",
        close: "]",
        behind: "",
        parts: 100,
        column: 253,
    },
    Nest {
        before: "VAR i: INTEGER; BEGIN i := ",
        open: "ORD({",
        inside: "1 .. 0",
        close: "} * {})",
        behind: "",
        parts: 50,
        column: 291,
    },
    Nest {
        before: "VAR b: BOOLEAN; BEGIN ",
        open: "IF b THEN ELSIF b THEN ",
        inside: "",
        close: "END ",
        behind: "",
        parts: 100,
        column: 2333,
    },
    Nest {
        before: "VAR i: INTEGER; BEGIN ",
        open: "CASE i OF 0: ",
        inside: "",
        close: "END ",
        behind: "",
        parts: 100,
        column: 1333,
    },
    Nest {
        before: "VAR b: BOOLEAN; BEGIN ",
        open: "WHILE b DO ",
        inside: "",
        close: "END ",
        behind: "",
        parts: 100,
        column: 1133,
    },
    Nest {
        before: "BEGIN ",
        open: "REPEAT ",
        inside: "",
        close: "UNTIL TRUE ",
        behind: "",
        parts: 100,
        column: 717,
    },
    Nest {
        before: "VAR i: INTEGER; BEGIN ",
        open: "FOR i := 1 TO 0 DO ",
        inside: "",
        close: "END ",
        behind: "",
        parts: 100,
        column: 1933,
    },
    Nest {
        before: "VAR a: ",
        open: "ARRAY 1 OF ",
        inside: "CHAR",
        close: "",
        behind: ";",
        parts: 100,
        column: 1118,
    },
    Nest {
        before: "VAR r: ",
        open: "RECORD f: ",
        inside: "CHAR",
        close: " END",
        behind: ";",
        parts: 100,
        column: 1018,
    },
    Nest {
        before: "TYPE T = ",
        open: "POINTER TO RECORD f: ",
        inside: "CHAR",
        close: " END",
        behind: ";",
        parts: 50,
        column: 1070,
    },
    Nest {
        before: "",
        open: "PROCEDURE P; ",
        inside: "",
        close: "END P; ",
        behind: "",
        parts: 100,
        column: 1311,
    },
];

/// Runs the module with so many parts of a nest, which ends with this status and this line.
fn runs_so<R: Threads + Wait + AllocGlobal + Sync + Abort>(
    rt: &R,
    nest: &Nest<'_>,
    parts: usize,
    status: u8,
    line: &str,
) -> Result<(), Fail> {
    let open = nest.open.repeat(rt.alloc(), parts)?;
    let close = nest.close.repeat(rt.alloc(), parts)?;
    let (before, inside, behind) = (nest.before, nest.inside, nest.behind);
    let text = format!(in rt.alloc(); "MODULE N; {before}{open}{inside}{close}{behind} END N.")?;
    let mut files = MemFiles::new(rt.alloc(), Vec::new(rt.alloc()));
    files.put("N.Mod", text.as_bytes())?;
    let mut input = MemSource::new(Vec::new(rt.alloc()), 1, Vec::new(rt.alloc()));
    let mut out = MemSink::new(rt.alloc(), 100, 100, Vec::new(rt.alloc()))?;
    let mut err = MemSink::new(rt.alloc(), 100, 100, Vec::new(rt.alloc()))?;
    let mut words = Vec::new(rt.alloc());
    for word in ["run", "N.Mod"] {
        words.push(String::from_str(rt.alloc(), word)?)?;
    }
    let words = words.as_slice();
    let outcome = trc(
        rt, words, &mut files, &mut input, &mut out, &mut err, &OpenGate,
    );
    assert_eq!(rt; err.bytes(), line.as_bytes());
    assert_eq!(rt; outcome.status, status);
    Ok(())
}

#[test]
fn nests_of_100_and_101(rt: HostRuntime) -> Result<(), Fail> {
    for nest in NESTS.as_slice() {
        runs_so(&rt, nest, nest.parts, 0, "")?;
        let column = nest.column;
        let line = format!(in rt.alloc(); "trc: N.Mod:1:{column}: error 21 TooDeep\n")?;
        runs_so(&rt, nest, nest.parts.saturating_add(1), 2, &line)?;
    }
    Ok(())
}
