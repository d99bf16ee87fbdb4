//! The program: it hands the host's files and streams to the command of its words, and ends with the status.
#![tactic(auto)]

mod stack;

use std::alloc::{AllocGlobal, Global};
use std::process::ExitCode;
use std::rt::Env;
use std::sync::Wait;
use std::thread;
use std::thread::{Builder, Threads};
use trc_base::{Files, HostFiles, HostSink, HostSource, Sink, Source};
use trc_cli::run_program;

/// The size of the block by which the C library's allocator learns to keep memory: more than one list of a compilation takes.
const KEPT: usize = 16 << 20;

/// The stack, in bytes, of the thread that does the work where the process's own is short.
const STACK: usize = 8 << 20;

fn main(rt: HostRuntime) -> ExitCode {
    keep_memory(rt.alloc());
    let mut files = HostFiles::new(&rt);
    let mut input = HostSource::new(&rt);
    let mut out = HostSink::new(&rt, false);
    let mut err = HostSink::new(&rt, true);
    let told = if stack::is_short(&rt) {
        let (files, input) = (HostFiles::new(&rt), HostSource::new(&rt));
        let (out, err) = (HostSink::new(&rt, false), HostSink::new(&rt, true));
        run_in_thread(&rt, files, input, out, err)
    } else {
        None
    };
    let status = match told {
        Some(status) => status,
        None => run(&rt, &mut files, &mut input, &mut out, &mut err),
    };
    ExitCode::from(status)
}

// The C library's allocator gives a block above a threshold back to the system as soon as it is let go, and what takes its place is new
// memory, whose pages cost more than to fill them. The threshold rises to the size of such a block when one is let go: so one is asked
// for and let go untouched. Where there is no room for it, nothing is lost.
fn keep_memory(alloc: Global) {
    if let Ok(block) = Vec::<u8>::with_capacity(alloc, KEPT) {
        drop(block);
    }
}

/// Runs the command of the program's words, in a frame of its own, which `main` needn't have beside it.
#[inline(never)]
fn run<R: Threads + Wait + Env + AllocGlobal + Sync, F: Files, I: Source, O: Sink, E: Sink>(
    rt: &R,
    files: &mut F,
    input: &mut I,
    out: &mut O,
    err: &mut E,
) -> u8 {
    run_program(rt, files, input, out, err)
}

/// As `run`, in a thread that has much stack; none, and nothing is done, where no such thread can be made.
#[inline(never)]
fn run_in_thread<
    R: Threads + Wait + Env + AllocGlobal + Sync,
    F: Files + Send + Drop,
    I: Source + Send + Drop,
    O: Sink + Send + Drop,
    E: Sink + Send + Drop,
>(rt: &R, mut files: F, mut input: I, mut out: O, mut err: E) -> Option<u8> {
    thread::scope(thread::scope_env(), rt, move |scope| -> Option<u8> {
        let worker = Builder::new().stack_size(STACK);
        let handle = worker
            .spawn_scoped(scope, move || -> u8 {
                run(rt, &mut files, &mut input, &mut out, &mut err)
            })
            .ok()?;
        Some(handle.join(rt))
    })
}
