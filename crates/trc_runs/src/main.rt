//! The stored runs of the program: what its top call does with examples, pages, explanations and vectors, and what the program does
//! with a file that isn't there.
//!
//! Each part but the last prints a section, which begins with a line of its name. A fault in one of them ends the program with status 1.
//! The last part is the program once more, with the words that the process has: the file that these name isn't there, so it
//! ends with status 4 and writes nothing on the output.
#![tactic(auto)]

mod calls;
mod documents;
mod example_files;
mod examples;
mod explained;
mod pages;
mod templates;
mod trying;
mod vectors;

use anyhow::Result;
use examples::print_examples;
use explained::print_explained;
use pages::print_pages;
use std::alloc::AllocGlobal;
use std::io::{Input, Print};
use std::process::ExitCode;
use std::sync::Wait;
use std::thread::Threads;
use trc_base::{Files, HostFiles, HostSink, HostSource, Sink};
use trc_cli::run_program;
use vectors::print_vectors;

/// Prints all sections, each behind its name. What calls over the files write and tell goes to these sinks.
fn print_sections<
    R: Threads + Wait + AllocGlobal + Sync + Print + Input,
    F: Files,
    O: Sink,
    E: Sink,
>(rt: &R, files: &mut F, out: &mut O, told: &mut E) -> Result<()> {
    println!(rt; "== examples")?;
    print_examples(rt, files, out, told)?;
    println!(rt; "== pages")?;
    print_pages(rt, files, out, told)?;
    println!(rt; "== explanations")?;
    print_explained(rt, files)?;
    println!(rt; "== vectors")?;
    print_vectors(rt)
}

fn main(rt: HostRuntime) -> Result<ExitCode> {
    let mut files = HostFiles::new(&rt);
    let mut out = HostSink::new(&rt, false);
    let mut told = HostSink::new(&rt, false);
    print_sections(&rt, &mut files, &mut out, &mut told)?;
    let mut input = HostSource::new(&rt);
    let mut err = HostSink::new(&rt, true);
    let status = run_program(&rt, &mut files, &mut input, &mut out, &mut err);
    Ok(ExitCode::from(status))
}
