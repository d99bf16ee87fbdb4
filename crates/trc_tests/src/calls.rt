//! Calls of the top call over devices in memory: with which words and files, and what comes of them.

use std::alloc::AllocGlobal;
use std::sync::Wait;
use std::test::Fail;
use std::thread::Threads;
use trc_base::{Files, Gate, MemFiles, MemSink, MemSource, OpenGate};
use trc_cli::{Outcome, trc};

/// How a call ended, and what the output and the error output took.
#[derive(Drop)]
pub(crate) struct Seen {
    pub(crate) outcome: Outcome,
    pub(crate) out: Vec<u8>,
    pub(crate) err: Vec<u8>,
}

/// What a call comes to: its status, its output, and the line that is told.
#[derive(Clone, Copy)]
pub(crate) struct Wanted<'a> {
    pub(crate) status: u8,
    pub(crate) out: &'a str,
    pub(crate) err: &'a str,
}

/// A call that ends well and writes this.
pub(crate) fn done<'a>(out: &'a str) -> Wanted<'a> {
    Wanted {
        status: 0,
        out,
        err: "",
    }
}

/// A call that ends with this status and line, and writes nothing on the output.
pub(crate) fn refused<'a>(status: u8, err: &'a str) -> Wanted<'a> {
    Wanted {
        status,
        out: "",
        err,
    }
}

/// Calls `trc` with these words over these files and input, with room for so many bytes on the output, of which
/// these writes fail.
pub(crate) fn call<R: Threads + Wait + AllocGlobal + Sync>(
    rt: &R,
    texts: &[&str],
    files: &mut MemFiles,
    input: &mut MemSource,
    room: usize,
    failing: Vec<u64>,
) -> Result<Seen, Fail> {
    call_through(rt, texts, files, input, room, failing, &OpenGate)
}

/// Calls `trc` so, with workers that pass this gate.
pub(crate) fn call_through<R: Threads + Wait + AllocGlobal + Sync, G: Gate>(
    rt: &R,
    texts: &[&str],
    files: &mut MemFiles,
    input: &mut MemSource,
    room: usize,
    failing: Vec<u64>,
    gate: &G,
) -> Result<Seen, Fail> {
    let mut words = Vec::new(rt.alloc());
    for text in texts {
        words.push(String::from_str(rt.alloc(), text)?)?;
    }
    let mut out = MemSink::new(rt.alloc(), room, 7, failing)?;
    let mut err = MemSink::new(rt.alloc(), 200, 3, Vec::new(rt.alloc()))?;
    let outcome = trc(rt, words.as_slice(), files, input, &mut out, &mut err, gate);
    let out = Vec::from_slice(rt.alloc(), out.bytes())?;
    let err = Vec::from_slice(rt.alloc(), err.bytes())?;
    Ok(Seen { outcome, out, err })
}

/// Makes a call over these files and this input, without further faults and with ample room, and fails where another thing comes
/// of it than is wanted.
pub(crate) fn wants<R: Threads + Wait + AllocGlobal + Sync>(
    rt: &R,
    texts: &[&str],
    files: &mut MemFiles,
    input: &[u8],
    wanted: Wanted<'_>,
) -> Result<(), Fail> {
    let bytes = Vec::from_slice(rt.alloc(), input)?;
    let mut source = MemSource::new(bytes, 5, Vec::new(rt.alloc()));
    let seen = call(rt, texts, files, &mut source, 1000, Vec::new(rt.alloc()))?;
    let Seen { outcome, out, err } = seen;
    if outcome.status != wanted.status {
        return Err(Fail::new(outcome.status));
    }
    if out.as_slice() != wanted.out.as_bytes() {
        return Err(Fail::new(wanted.out));
    }
    if err.as_slice() != wanted.err.as_bytes() {
        return Err(Fail::new(wanted.err));
    }
    Ok(())
}

/// Runs a module with this body over a call, which comes to what is wanted.
pub(crate) fn runs<R: Threads + Wait + AllocGlobal + Sync>(
    rt: &R,
    body: &str,
    wanted: Wanted<'_>,
) -> Result<(), Fail> {
    let text = format!(in rt.alloc(); "MODULE M; IMPORT Out; BEGIN {body} END M.")?;
    let mut files = MemFiles::new(rt.alloc(), Vec::new(rt.alloc()));
    files.put("M.Mod", text.as_bytes())?;
    wants(rt, &["run", "M.Mod"], &mut files, b"", wanted)
}

/// The module that prints 42, and files that hold it, of which these calls fail.
pub(crate) fn answer<R: AllocGlobal>(rt: &R, failing: Vec<u64>) -> Result<MemFiles, Fail> {
    let mut files = MemFiles::new(rt.alloc(), failing);
    files.put(
        "M.Mod",
        b"MODULE M; IMPORT Out; BEGIN Out.Int(6*7, 0); Out.Ln END M.",
    )?;
    Ok(files)
}

/// Fails where a file holds other bytes than these.
pub(crate) fn holds<R: AllocGlobal>(
    rt: &R,
    files: &mut MemFiles,
    name: &str,
    bytes: &[u8],
) -> Result<(), Fail> {
    let held = files.read(rt.alloc(), name, 100_000)?;
    if held.as_slice() == bytes {
        return Ok(());
    }
    Err(Fail::new(name))
}
