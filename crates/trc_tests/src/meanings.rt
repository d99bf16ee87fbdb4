//! Calls of `mean` and `both`, in rows.

use std::alloc::AllocGlobal;
use std::process::Abort;
use std::sync::Wait;
use std::test::Fail;
use std::thread::Threads;
use trc_base::{MemFiles, MemSink, MemSource, OpenGate};
use trc_cli::trc;

/// A module that writes what it reads.
const COPIES: &str =
    "MODULE M; IMPORT In, Out; VAR c: CHAR; BEGIN In.Char(c); WHILE In.Done DO Out.Char(c); In.Char(c) END END M.";

/// A call over the file `M.Mod`, which copies its input: its words, the input, which call of each device fails, and what comes
/// of it.
#[derive(Clone, Copy)]
struct Row<'a> {
    words: &'a [&'a str],
    input: &'a [u8],
    files_fail: &'a [u64],
    input_fails: &'a [u64],
    out_fails: &'a [u64],
    status: u8,
    out: &'a str,
    err: &'a str,
}

/// A call of `mean` with this input, of which no device fails, and which ends.
const ENDS: Row<'static> = Row {
    words: &["mean", "M.Mod"],
    input: b"ab",
    files_fail: &[],
    input_fails: &[],
    out_fails: &[],
    status: 0,
    out: "ab",
    err: "",
};

/// Makes the call of a row, and looks at all that came of it.
fn comes_so<R: Threads + Wait + AllocGlobal + Sync + Abort>(
    rt: &R,
    row: Row<'_>,
) -> Result<(), Fail> {
    let alloc = rt.alloc();
    let mut words = Vec::new(alloc);
    for word in row.words {
        words.push(String::from_str(alloc, word)?)?;
    }
    let mut files = MemFiles::new(alloc, Vec::from_slice(alloc, row.files_fail)?);
    files.put("M.Mod", COPIES.as_bytes())?;
    let bytes = Vec::from_slice(alloc, row.input)?;
    let mut input = MemSource::new(bytes, 4096, Vec::from_slice(alloc, row.input_fails)?);
    let mut out = MemSink::new(alloc, 100, 1, Vec::from_slice(alloc, row.out_fails)?)?;
    let mut err = MemSink::new(alloc, 100, 100, Vec::new(alloc))?;
    let words = words.as_slice();
    let outcome = trc(
        rt, words, &mut files, &mut input, &mut out, &mut err, &OpenGate,
    );
    assert_eq!(rt; outcome.status, row.status);
    assert_eq!(rt; out.bytes(), row.out.as_bytes());
    assert_eq!(rt; err.bytes(), row.err.as_bytes());
    Ok(())
}

#[test]
fn without_faults(rt: HostRuntime) -> Result<(), Fail> {
    let rows = [
        ENDS,
        Row {
            words: &["mean", "M.Mod", "--turns", "3"],
            ..ENDS
        },
        Row {
            words: &["mean", "M.Mod", "--turns", "2"],
            status: 7,
            err: "trc: turns spent\n",
            ..ENDS
        },
        Row {
            words: &["both", "M.Mod"],
            out: "meaning ended 2\nmachine ended 2\n",
            ..ENDS
        },
        Row {
            words: &["both", "M.Mod", "--turns", "2", "--steps", "0"],
            out: "meaning going 2\nmachine going 0\n",
            ..ENDS
        },
    ];
    for row in &rows {
        comes_so(&rt, *row)?;
    }
    Ok(())
}

#[test]
fn with_faults(rt: HostRuntime) -> Result<(), Fail> {
    let rows = [
        Row {
            files_fail: &[0],
            status: 4,
            out: "",
            err: "trc: read fault on files\n",
            ..ENDS
        },
        Row {
            input_fails: &[0],
            status: 4,
            out: "",
            err: "trc: read fault on input\n",
            ..ENDS
        },
        Row {
            out_fails: &[1],
            status: 4,
            out: "a",
            err: "trc: write fault on output\n",
            ..ENDS
        },
        Row {
            words: &["both", "M.Mod"],
            out_fails: &[4],
            status: 4,
            out: "mean",
            err: "trc: write fault on output\n",
            ..ENDS
        },
    ];
    for row in &rows {
        comes_so(&rt, *row)?;
    }
    Ok(())
}

#[test]
fn with_the_longest_input(rt: HostRuntime) -> Result<(), Fail> {
    let most = vec![in rt.alloc(); b'x'; 1_048_576]?;
    comes_so(
        &rt,
        Row {
            words: &["both", "M.Mod"],
            input: most.as_slice(),
            out: "meaning ended 1048576\nmachine ended 1048576\n",
            ..ENDS
        },
    )?;
    let more = vec![in rt.alloc(); b'x'; 1_048_577]?;
    for command in ["mean", "both"] {
        comes_so(
            &rt,
            Row {
                words: &[command, "M.Mod"],
                input: more.as_slice(),
                status: 3,
                out: "",
                err: "trc: input too long\n",
                ..ENDS
            },
        )?;
    }
    Ok(())
}
