//! Reads flows, a line each with a policy and a number of registers before it, and prints the final results of their traces.
//!
//! The stored input are flows that another compiler, written in Python from the rules alone, selects for a few modules,
//! with each policy, with 4, 5, 8 and 16 registers, and by linear scan without hints too; what it allocates is the stored
//! output (`bench/policy_vectors.py` makes both where it is, and says how they are written).
//!
//! With the word `bench`, for `bench/allocate.sh`, it prints how many lines there are in all.
#![tactic(auto)]

ghost use Rattle.alloc_choice.specs.Choice.{IsFitChoice};

use alloc_choice::{Choice, Policy, allocate_trace};
use global_live::live;
use lir_core::{Flow, Line, Place, Places, TraceIn, TraceOut};
use outside::{Memory, OpenGate};
use std::alloc::{AllocError, Global};
use std::io::{BufRead, BufReader};
use std::sync::Wait;
use std::thread::Threads;
use std::{env, io};
use trace_build::{Builder, build};
use trace_pool::final_results;
use trace_work::{TraceWork, WorkFault};
use vector_texts::{Words, flow_in};

fn push_places(text: &mut String, q: &Places) -> Result<(), AllocError> {
    for content in q.regs.as_slice() {
        match content {
            Some(value) => write!(text, " {value}")?,
            None => text.push_str(" -")?,
        }
    }
    text.push_str(" home")?;
    for value in q.homed.as_slice() {
        write!(text, " {value}")?;
    }
    Ok(())
}

fn push_place(text: &mut String, place: Place) -> Result<(), AllocError> {
    match place {
        Place::Reg(reg) => write!(text, " x{reg}"),
        Place::Home(value) => write!(text, " h{value}"),
        Place::Out(slot) => write!(text, " o{slot}"),
    }
}

fn push_line(text: &mut String, line: &Line) -> Result<(), AllocError> {
    match line {
        Line::Lir(index) => write!(text, " do {index}"),
        Line::Store { reg, value } => write!(text, " store x{reg} {value}"),
        Line::Load { reg, value } => write!(text, " load x{reg} {value}"),
        Line::Result(reg) => write!(text, " result x{reg}"),
        Line::Target(place) => {
            text.push_str(" aim")?;
            push_place(text, *place)
        }
        Line::Moves(moves) => {
            text.push_str(" moves")?;
            for one in moves.as_slice() {
                push_place(text, one.to)?;
                push_place(text, one.from)?;
            }
            Ok(())
        }
    }
}

/// The lines for a result: of each node the start, the lines, the registers named, and the end.
fn push_result(text: &mut String, out: &TraceOut) -> Result<(), AllocError> {
    for (i, start) in out.starts.as_slice().iter().enumerate() {
        text.push_str("start")?;
        push_places(text, start)?;
        text.push_str("\nlines")?;
        if let Some(lines) = out.lines.as_slice().get(i) {
            for line in lines.as_slice() {
                push_line(text, line)?;
            }
        }
        text.push_str("\nregs")?;
        if let Some(regs) = out.regs.as_slice().get(i) {
            for reg in regs.as_slice() {
                write!(text, " {reg}")?;
            }
        }
        text.push_str("\nend")?;
        if let Some(end) = out.ends.as_slice().get(i) {
            push_places(text, end)?;
        }
        text.push_str("\n")?;
    }
    Ok(())
}

/// A policy by its word.
fn policy_named(word: &str) -> Option<Policy> {
    match word {
        "plain" => Some(Policy::Plain),
        "linear" => Some(Policy::Linear),
        "bottom_up" => Some(Policy::BottomUp),
        "mixed" => Some(Policy::Mixed),
        _ => None,
    }
}

/// The results of the traces of the flow that a line has behind its policy and its number of registers, from 4 to 16;
/// none where it has no such policy or number. With `alone` behind the policy no trace has a hint.
fn results<R: Threads + Wait + Sync>(
    rt: &R,
    alloc: Global,
    line: &str,
) -> Result<Vec<TraceOut>, Memory> {
    let mut words = Words::new(line);
    let Some(policy) = policy_named(words.word()) else {
        return Ok(Vec::new(alloc));
    };
    let alone = words.takes("alone");
    let regs = u8::try_from(words.or_zero()).unwrap_or(0);
    if regs < 4 || regs > 16 {
        return Ok(Vec::new(alloc));
    }
    let flow = flow_in(alloc, &mut words)?;
    let choice = Choice {
        policy,
        builder: Builder::Bi,
        regs,
        jobs: 1,
    };
    if alone {
        results_alone(alloc, &choice, &flow)
    } else {
        results_with_hints(rt, alloc, &choice, flow)
    }
}

/// The final results of a flow's traces.
fn results_with_hints<R: Threads + Wait + Sync>(
    rt: &R,
    alloc: Global,
    choice: &Choice,
    flow: Flow,
) -> Result<Vec<TraceOut>, Memory>
    requires { IsFitChoice choice.now }
{
    let flows = [flow];
    match TraceWork::new(alloc, choice, 0, &flows) {
        Ok(work) => final_results(rt, alloc, &work, &OpenGate, choice.jobs),
        Err(WorkFault::Traces) => Ok(Vec::new(alloc)),
        Err(WorkFault::Memory) => Err(Memory),
    }
}

/// The results of a flow's traces without hints.
fn results_alone(alloc: Global, choice: &Choice, flow: &Flow) -> Result<Vec<TraceOut>, Memory>
    requires { IsFitChoice choice.now }
{
    let live = live(alloc, flow)?;
    let traces = build(alloc, choice.builder, flow)?;
    let mut outs = Vec::new(alloc);
    for (number, trace) in traces.iter().enumerate() {
        let t = TraceIn {
            flow,
            live: &live,
            trace,
            number: u32::try_from(number).unwrap_or(0),
            regs: choice.regs,
            from: None,
        };
        outs.push(allocate_trace(alloc, choice, &t, None)?)?;
    }
    Ok(outs)
}

fn answer<R: Threads + Wait + Sync>(rt: &R, alloc: Global, line: &str) -> Result<String, Memory> {
    let mut text = String::new(alloc);
    for out in &results(rt, alloc, line)? {
        push_result(&mut text, out)?;
    }
    Ok(text)
}

fn count<R: Threads + Wait + Sync>(rt: &R, alloc: Global, line: &str) -> Result<String, Memory> {
    let mut lines: u64 = 0;
    for out in &results(rt, alloc, line)? {
        for node in out.lines.as_slice() {
            lines = lines.saturating_add(node.len() as u64);
        }
    }
    Ok(format!(in alloc; "{lines}\n")?)
}

fn main(rt: HostRuntime) -> io::Result<()> {
    let mut words = env::args(&rt)?;
    words.next();
    let bench = words.next().is_some();
    for line in BufReader::new(rt.alloc(), rt.reader())?.lines(rt.alloc()) {
        let line = line?;
        let text = if bench {
            count(&rt, rt.alloc(), line.as_str())
        } else {
            answer(&rt, rt.alloc(), line.as_str())
        };
        match text {
            Ok(text) => print!(rt; "{text}")?,
            Err(Memory) => println!(rt; "out of memory")?,
        }
    }
    Ok(())
}
