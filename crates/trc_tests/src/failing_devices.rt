//! Calls over devices of which chosen calls fail, in rows.

use std::alloc::AllocGlobal;
use std::process::Abort;
use std::sync::Wait;
use std::test::Fail;
use std::thread::Threads;
use trc_base::{Files, GetFault, MemFiles, MemSink, MemSource, OpenGate};
use trc_cli::{Cause, Outcome, trc};

/// A module that writes what it reads.
const COPIES: &str =
    "MODULE K; IMPORT In, Out; VAR c: CHAR; BEGIN In.Char(c); WHILE In.Done DO Out.Char(c); In.Char(c) END END K.";

/// A module that does nothing.
const EMPTY: &str = "MODULE E; END E.";

/// A call over the files `K.Mod` and `E.Mod`, the input `ab`, and devices that move one byte at a time: its words, which calls of
/// each device fail, and what comes of it.
#[derive(Clone, Copy)]
struct Row<'a> {
    words: &'a [&'a str],
    failing: Failing<'a>,
    status: u8,
    out: &'a str,
    err: &'a str,
    faults: [u64; 4],
}

/// The numbers of the calls that fail: of the files, the input, the output and the error output.
#[derive(Clone, Copy)]
struct Failing<'a> {
    files: &'a [u64],
    input: &'a [u64],
    out: &'a [u64],
    err: &'a [u64],
}

/// No call fails.
const NONE: Failing<'static> = Failing {
    files: &[],
    input: &[],
    out: &[],
    err: &[],
};

/// Whether the files hold the two modules alone, and no file O.
fn are_as_before<R: AllocGlobal>(rt: &R, files: &mut MemFiles) -> Result<bool, Fail> {
    let copies = files.read(rt.alloc(), "K.Mod", 1000)?;
    let empty = files.read(rt.alloc(), "E.Mod", 1000)?;
    let none = matches!(files.read(rt.alloc(), "O", 1000), Err(GetFault::NoSuchFile));
    Ok(none && copies.as_slice() == COPIES.as_bytes() && empty.as_slice() == EMPTY.as_bytes())
}

/// Makes the call of a row, looks at all that came of it, and gives how it ended.
fn comes_so<R: Threads + Wait + AllocGlobal + Sync + Abort>(
    rt: &R,
    row: Row<'_>,
) -> Result<Outcome, Fail> {
    let mut words = Vec::new(rt.alloc());
    for word in row.words {
        words.push(String::from_str(rt.alloc(), word)?)?;
    }
    let failing = row.failing;
    let mut files = MemFiles::new(rt.alloc(), Vec::from_slice(rt.alloc(), failing.files)?);
    files.put("K.Mod", COPIES.as_bytes())?;
    files.put("E.Mod", EMPTY.as_bytes())?;
    let bytes = Vec::from_slice(rt.alloc(), b"ab")?;
    let mut input = MemSource::new(bytes, 1, Vec::from_slice(rt.alloc(), failing.input)?);
    let fail_out = Vec::from_slice(rt.alloc(), failing.out)?;
    let mut out = MemSink::new(rt.alloc(), 100, 1, fail_out)?;
    let fail_err = Vec::from_slice(rt.alloc(), failing.err)?;
    let mut err = MemSink::new(rt.alloc(), 100, 1, fail_err)?;
    let words = words.as_slice();
    let outcome = trc(
        rt, words, &mut files, &mut input, &mut out, &mut err, &OpenGate,
    );
    assert_eq!(rt; outcome.status, row.status);
    assert_eq!(rt; out.bytes(), row.out.as_bytes());
    assert_eq!(rt; err.bytes(), row.err.as_bytes());
    let faults = [files.count(), input.count(), out.count(), err.count()];
    assert_eq!(rt; faults, row.faults);
    assert!(rt; are_as_before(rt, &mut files)?);
    Ok(outcome)
}

/// Each call in which a device fails that the command reads or writes: nothing but that is told, and the files stay.
const ROWS: [Row<'static>; 6] = [
    Row {
        words: &["run", "K.Mod"],
        failing: Failing {
            files: &[0],
            ..NONE
        },
        status: 4,
        out: "",
        err: "trc: read fault on files\n",
        faults: [1, 0, 0, 0],
    },
    Row {
        words: &["run", "K.Mod"],
        failing: Failing {
            input: &[2],
            ..NONE
        },
        status: 4,
        out: "",
        err: "trc: read fault on input\n",
        faults: [0, 1, 0, 0],
    },
    Row {
        words: &["run", "K.Mod"],
        failing: Failing { out: &[1], ..NONE },
        status: 4,
        out: "a",
        err: "trc: write fault on output\n",
        faults: [0, 0, 1, 0],
    },
    Row {
        words: &["build", "O", "E.Mod"],
        failing: Failing {
            files: &[1],
            ..NONE
        },
        status: 4,
        out: "",
        err: "trc: write fault on files\n",
        faults: [1, 0, 0, 0],
    },
    // No device that isn't used fails.
    Row {
        words: &["run", "E.Mod"],
        failing: Failing {
            files: &[4],
            input: &[0],
            out: &[0],
            err: &[0],
        },
        status: 0,
        out: "",
        err: "",
        faults: [0, 0, 0, 0],
    },
    Row {
        words: &["run", "K.Mod"],
        failing: NONE,
        status: 0,
        out: "ab",
        err: "",
        faults: [0, 0, 0, 0],
    },
];

#[test]
fn devices_fail_in_rows(rt: HostRuntime) -> Result<(), Fail> {
    for row in ROWS {
        comes_so(&rt, row)?;
    }
    Ok(())
}

// The cause and the status stay where the line can't be told.
#[test]
fn a_line_that_fails_changes_nothing(rt: HostRuntime) -> Result<(), Fail> {
    let row = Row {
        words: &["run", "Missing.Mod"],
        failing: Failing { err: &[0], ..NONE },
        status: 4,
        out: "",
        err: "",
        faults: [0, 0, 0, 1],
    };
    let outcome = comes_so(&rt, row)?;
    assert!(rt; matches!(outcome.cause, Cause::NoSuchFile { word: 0 }));
    Ok(())
}
