//! Calls of the top call: over any files and sinks, and over devices in memory.

use anyhow::Result;
use std::alloc::{AllocGlobal, Global};
use std::sync::Wait;
use std::thread::Threads;
use trc_base::{Files, MemFiles, MemSink, MemSource, OpenGate, Sink};
use trc_cli::trc;

/// How much a call over devices in memory may write on each of its sinks.
pub(crate) const ROOM: usize = 1 << 16;

/// The words of a text, which has a blank between them.
pub(crate) fn words_of(alloc: Global, text: &str) -> Result<Vec<String>> {
    let mut words = Vec::new(alloc);
    for word in text.split(' ') {
        words.push(String::from_str(alloc, word)?)?;
    }
    Ok(words)
}

/// Makes the call of these words with this input, over these files and sinks, and gives the status with which it ends.
pub(crate) fn call<R: Threads + Wait + AllocGlobal + Sync, F: Files, O: Sink, E: Sink>(
    rt: &R,
    words: &[String],
    input: Vec<u8>,
    files: &mut F,
    out: &mut O,
    err: &mut E,
) -> u8 {
    let mut source = MemSource::new(input, 64, Vec::new(rt.alloc()));
    let outcome = trc(rt, words, files, &mut source, out, err, &OpenGate);
    outcome.status
}

/// How a call over devices in memory ended, and what it wrote on the output and on the error output.
#[derive(Drop)]
pub(crate) struct Seen {
    pub(crate) status: u8,
    pub(crate) out: Vec<u8>,
    pub(crate) err: Vec<u8>,
}

/// Makes the call of these words with this input over files in memory, and gives what comes of it.
pub(crate) fn call_in_memory<R: Threads + Wait + AllocGlobal + Sync>(
    rt: &R,
    words: &[String],
    input: Vec<u8>,
    files: &mut MemFiles,
) -> Result<Seen> {
    let alloc = rt.alloc();
    let mut out = MemSink::new(alloc, ROOM, ROOM, Vec::new(alloc))?;
    let mut err = MemSink::new(alloc, ROOM, ROOM, Vec::new(alloc))?;
    let status = call(rt, words, input, files, &mut out, &mut err);
    let out = Vec::from_slice(alloc, out.bytes())?;
    let err = Vec::from_slice(alloc, err.bytes())?;
    Ok(Seen { status, out, err })
}
