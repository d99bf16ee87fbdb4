//! What the passes take: a line for each call.

ghost use Rattle.std.specs.Prelude.{◌≡◌, ◌≤◌, length, true, IfOk};
ghost use Rattle.image_form.specs.Form.{IsInForm};
ghost use Rattle.ob_types.specs.WellFormed.{well_formed};
ghost use Rattle.alloc_choice.specs.Choice.{IsFitChoice};

use crate::passes::{all_valid, allocated, compiled, cut, final_outs, linked, lowered, selected};
use anyhow::Result;
use flow_allocation::{Choice, Flow};
use image_form::Image;
use items::Items;
use ob_read::{TextFault, read_module};
use ob_scan::scan;
use ob_types::Program;
use source_program::source_program;
use ssa_build::LoweredProgram;
use ssa_core::Proc;
use std::alloc::Global;
use std::io;
use std::rt::{Clock, CpuClock};
use std::sync::Wait;
use std::thread::Threads;
use std::time::{Duration, Instant};

/// The most bytes that the scanner takes.
pub const MOST_BYTES: usize = 1_048_576;

/// When a call began, by the processors' time of the process and by the clock.
#[derive(Clone, Copy)]
struct Start {
    used: Duration,
    at: Instant,
}

impl Start {
    fn now<R: Clock + CpuClock>(rt: &R) -> io::Result<Self> {
        Ok(Start {
            used: rt.process_cpu_time()?,
            at: Instant::now(rt)?,
        })
    }

    /// Writes the microseconds since then, behind a name.
    fn tell<R: Clock + CpuClock + Print>(self, rt: &R, name: &str) -> io::Result<()> {
        let passed = self.at.elapsed(rt)?.as_micros();
        let used = rt.process_cpu_time()?.saturating_sub(self.used).as_micros();
        println!(rt; "{name} {used} {passed}")
    }
}

// The scanner.
fn time_scan<R: Clock + CpuClock + Print>(rt: &R, alloc: Global, bytes: &[u8]) -> Result<()>
    requires { length bytes.now ≤ 1048576 }
{
    let start = Start::now(rt)?;
    let _symbols = scan(alloc, bytes)?;
    start.tell(rt, "scan")?;
    Ok(())
}

// The scanner and the parser.
fn time_read<R: Clock + CpuClock + Print>(rt: &R, alloc: Global, bytes: &[u8]) -> Result<()> {
    let start = Start::now(rt)?;
    let _text = read_module(alloc, bytes)?;
    start.tell(rt, "read")?;
    Ok(())
}

/// The program of a module's text. Told are `scan`, `read`, which is scanning and parsing, and `check`, which is both and checking.
pub fn time_check<R: Clock + CpuClock + Print>(
    rt: &R,
    alloc: Global,
    texts: &[Items<u8>; 1],
) -> Result<Program>
    ensures { IfOk result (λ program. well_formed program ≡ true) }
{
    let bytes = texts[0].as_slice();
    if bytes.len() > MOST_BYTES {
        return Err(TextFault::TooLong.into());
    }
    time_scan(rt, alloc, bytes)?;
    time_read(rt, alloc, bytes)?;
    let start = Start::now(rt)?;
    let program = source_program(alloc, texts)?;
    start.tell(rt, "check")?;
    Ok(program)
}

// The flows in traces, and their final results.
fn time_traces<R: Clock + CpuClock + Print + Threads + Wait + Sync>(
    rt: &R,
    alloc: Global,
    choice: &Choice,
    flows: &[Flow],
) -> Result<()>
    requires { IsFitChoice choice.now }
{
    let start = Start::now(rt)?;
    let work = cut(alloc, choice, flows)?;
    start.tell(rt, "cut")?;
    let start = Start::now(rt)?;
    let _outs = final_outs(rt, alloc, choice, &work)?;
    start.tell(rt, "results")?;
    Ok(())
}

// The image of flows without globals and constants.
fn time_places<R: Clock + CpuClock + Print + Threads + Wait + Sync>(
    rt: &R,
    alloc: Global,
    choice: &Choice,
    flows: &[Flow],
) -> Result<Image>
    requires { IsFitChoice choice.now }
    ensures { IfOk result IsInForm }
{
    let start = Start::now(rt)?;
    let results = allocated(rt, alloc, choice, flows)?;
    start.tell(rt, "allocate")?;
    let start = Start::now(rt)?;
    let image = linked(alloc, flows, results)?;
    start.tell(rt, "link")?;
    Ok(image)
}

// The flows of procedures.
fn time_flows<R: Clock + CpuClock + Print>(
    rt: &R,
    alloc: Global,
    procedures: Items<Proc>,
) -> Result<Vec<Flow>> {
    let start = Start::now(rt)?;
    let _valid = all_valid(alloc, procedures.as_slice())?;
    start.tell(rt, "valid")?;
    let start = Start::now(rt)?;
    let flows = selected(alloc, procedures)?;
    start.tell(rt, "select")?;
    Ok(flows)
}

// The procedures of a program.
fn time_lower<R: Clock + CpuClock + Print>(
    rt: &R,
    alloc: Global,
    program: &Program,
) -> Result<LoweredProgram>
    requires { well_formed program.now ≡ true }
{
    let start = Start::now(rt)?;
    let made = lowered(alloc, program)?;
    start.tell(rt, "lower")?;
    Ok(made)
}

/// Told are what `time_check` tells, and lowering, which may pass a limit.
pub fn time_lowering<R: Clock + CpuClock + Print>(
    rt: &R,
    alloc: Global,
    texts: &[Items<u8>; 1],
) -> Result<()> {
    let program = time_check(rt, alloc, texts)?;
    let start = Start::now(rt)?;
    let _made = lowered(alloc, &program);
    start.tell(rt, "lower")?;
    Ok(())
}

// The flows of a module's text.
fn time_front<R: Clock + CpuClock + Print>(
    rt: &R,
    alloc: Global,
    texts: &[Items<u8>; 1],
) -> Result<Vec<Flow>> {
    let program = time_check(rt, alloc, texts)?;
    let made = time_lower(rt, alloc, &program)?;
    let LoweredProgram { procedures, .. } = made;
    time_flows(rt, alloc, procedures)
}

/// The image of a module's text without globals and constants. Told are what `time_check` tells, and each later pass.
pub fn time_passes<R: Clock + CpuClock + Print + Threads + Wait + Sync>(
    rt: &R,
    alloc: Global,
    choice: &Choice,
    texts: &[Items<u8>; 1],
) -> Result<Image>
    requires { IsFitChoice choice.now }
    ensures { IfOk result IsInForm }
{
    let flows = time_front(rt, alloc, texts)?;
    time_traces(rt, alloc, choice, flows.as_slice())?;
    time_places(rt, alloc, choice, flows.as_slice())
}

/// The image of a module's text. Told is what all passes take in one call.
pub fn time_all<R: Clock + CpuClock + Print + Threads + Wait + Sync>(
    rt: &R,
    alloc: Global,
    choice: &Choice,
    texts: &[Items<u8>; 1],
) -> Result<Image>
    requires { IsFitChoice choice.now }
    ensures { IfOk result IsInForm }
{
    let start = Start::now(rt)?;
    let made = compiled(rt, alloc, choice, texts)?;
    start.tell(rt, "all")?;
    Ok(made.image)
}
