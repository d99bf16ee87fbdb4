//! Reads flows and procedures, a line each. Of a flow it prints its traces with the parents of these, for both builders, and
//! what is live into each node; of a procedure whether it is valid and, if so, the flow that is selected.
//!
//! The stored input are what another compiler, written in Python from the rules alone, lowers and selects for a few
//! modules, and procedures that break one rule each; what it cuts, finds live, refuses and selects is the stored output
//! (`bench/flow_vectors.py` makes both where it is, and says how flows and procedures are written).
//!
//! With the words `traces TIMES`, `live TIMES`, `valid TIMES` or `select TIMES`, for `bench/flows.sh`, it does that alone, so
//! often for each line, and prints a count.
#![tactic(auto)]

mod procs;
mod selections;

use global_live::{LiveSets, live};
use lir_core::Flow;
use outside::Memory;
use procs::proc_of;
use selections::{nodes_selected, selection, times_valid};
use std::alloc::{AllocError, Global};
use std::io::{BufRead, BufReader};
use std::{env, io};
use trace_build::{Builder, Trace, build, parents};
use vector_texts::flow_of;

/// Adds numbers between commas, or `-` where there are none.
pub(crate) fn push_list(text: &mut String, numbers: &[u32]) -> Result<(), AllocError> {
    if numbers.is_empty() {
        return text.push_str("-");
    }
    for (place, number) in numbers.iter().enumerate() {
        if place > 0 {
            text.push_str(",")?;
        }
        write!(text, "{number}")?;
    }
    Ok(())
}

/// A line with the traces of a flow, and one with their parents.
fn cut(alloc: Global, name: &str, builder: Builder, flow: &Flow) -> Result<String, Memory> {
    let traces = build(alloc, builder, flow)?;
    let mut text = String::from_str(alloc, name)?;
    for trace in &traces {
        text.push_str(" ")?;
        push_list(&mut text, trace.nodes.as_slice())?;
    }
    push_parents(alloc, &mut text, flow, traces.as_slice())?;
    Ok(text)
}

fn push_parents(
    alloc: Global,
    text: &mut String,
    flow: &Flow,
    traces: &[Trace],
) -> Result<(), Memory> {
    text.push_str("\nparents")?;
    for parent in &parents(alloc, flow, traces)? {
        match parent {
            Some(parent) => write!(text, " {parent}")?,
            None => text.push_str(" -")?,
        }
    }
    Ok(())
}

/// A line with the values that are live into each node.
fn lives(alloc: Global, flow: &Flow) -> Result<String, Memory> {
    let sets = live(alloc, flow)?;
    let mut text = String::from_str(alloc, "live")?;
    for node in 0..u32::try_from(flow.nodes.len()).unwrap_or(0) {
        text.push_str(" ")?;
        push_list(
            &mut text,
            live_into(alloc, &sets, node, flow.values)?.as_slice(),
        )?;
    }
    Ok(text)
}

fn live_into(
    alloc: Global,
    sets: &LiveSets,
    node: u32,
    values: u32,
) -> Result<Vec<u32>, AllocError> {
    let mut found = Vec::new(alloc);
    for value in 0..values {
        if sets.has(node, value) {
            found.push(value)?;
        }
    }
    Ok(found)
}

/// The answer to a line.
fn answer(alloc: Global, line: &str) -> Result<String, Memory> {
    if line.starts_with("proc") {
        return selection(alloc, proc_of(alloc, line)?);
    }
    let flow = flow_of(alloc, line)?;
    let uni = cut(alloc, "uni", Builder::Uni, &flow)?;
    let bi = cut(alloc, "bi", Builder::Bi, &flow)?;
    let lives = lives(alloc, &flow)?;
    Ok(format!(in alloc; "{uni}\n{bi}\n{lives}")?)
}

/// How many traces a flow has, made so often, with their parents.
fn traces_of(alloc: Global, flow: &Flow, times: u32) -> Result<usize, Memory> {
    let mut count = 0;
    for _ in 0..times {
        let traces = build(alloc, Builder::Bi, flow)?;
        count = parents(alloc, flow, traces.as_slice())?.len();
    }
    Ok(count)
}

/// Into how many nodes value 0 is live, found so often.
fn live_nodes(alloc: Global, flow: &Flow, times: u32) -> Result<usize, Memory> {
    let mut count = 0;
    for _ in 0..times {
        let sets = live(alloc, flow)?;
        count = (0..u32::try_from(flow.nodes.len()).unwrap_or(0))
            .filter(|node| sets.has(*node, 0))
            .count();
    }
    Ok(count)
}

/// The answer to a line: of a bench, if the words name one.
fn reply(alloc: Global, bench: &Option<String>, times: u32, line: &str) -> Result<String, Memory> {
    let Some(bench) = bench else {
        return answer(alloc, line);
    };
    let count = match bench.as_str() {
        "traces" => traces_of(alloc, &flow_of(alloc, line)?, times)?,
        "live" => live_nodes(alloc, &flow_of(alloc, line)?, times)?,
        "valid" => times_valid(alloc, &proc_of(alloc, line)?, times)?,
        _ => nodes_selected(alloc, line, times)?,
    };
    Ok(format!(in alloc; "{count}")?)
}

fn main(rt: HostRuntime) -> io::Result<()> {
    let mut words = env::args(&rt)?;
    words.next();
    let bench = words.next();
    let times = match words.next() {
        Some(times) => times.as_str().parse::<u32>().unwrap_or(1),
        None => 1,
    };
    for line in BufReader::new(rt.alloc(), rt.reader())?.lines(rt.alloc()) {
        match reply(rt.alloc(), &bench, times, line?.as_str()) {
            Ok(text) => println!(rt; "{text}")?,
            Err(Memory) => println!(rt; "out of memory")?,
        }
    }
    Ok(())
}
