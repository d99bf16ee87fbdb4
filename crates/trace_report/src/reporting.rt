//! The lines of flows.

ghost use Rattle.std.specs.Prelude.{◌≡◌, ◌+◌, ◌++◌, ℕ, List, None, OnOk, IfOk, All, slice_index_or, length};
ghost use Rattle.lir_core.specs.Flows.{IsValidFlow};
ghost use Rattle.trace_build.specs.Traces.{traces_of, traces_in};
ghost use Rattle.trace_report.specs.Reports.{lines_from, IsFlowReport, IsReport};

use crate::lines::{Told, put_line};
use alloc_choice::{Choice, policy_of};
use lir_core::{Flow, Trace};
use outside::Memory;
use std::alloc::Global;
use trace_build::{build, parents};

/// What is told of flows: a line for each trace, and how many there are.
#[derive(Drop)]
pub struct Report {
    pub lines: Vec<u8>,
    pub traces: usize,
}

// The trace above the trace of this number.
fn parent_at(parents: &[Option<u32>], number: usize) -> Option<u32>
    ensures { result ≡ slice_index_or parents.now number None }
{
    match parents.get(number) {
        Some(parent) => *parent,
        None => None,
    }
}

// A place as a number.
fn number_of(place: usize) -> Result<u32, Memory>
    ensures { IfOk result (λ n. n ≡ place) }
{
    u32::try_from(place).map_err(|_| Memory)
}

// So many, and so many more.
fn total(traces: usize, more: usize) -> Result<usize, Memory>
    ensures { IfOk result (λ n. n ≡ traces + more) }
{
    traces.checked_add(more).ok_or(Memory)
}

// Appends the lines of a flow's traces.
fn put_lines(
    alloc: Global,
    text: &mut Vec<u8>,
    choice: &Choice,
    procedure: u32,
    flow: &Flow,
    traces: &[Trace],
    parents: &[Option<u32>],
) -> Result<(), Memory>
    ensures { OnOk result (text.new.items ≡ text.old.items ++ lines_from choice.now.policy flow.now.nodes procedure 0 parents.now traces.now) }
{
    for place in 0..traces.len() {
        let trace = &traces[place];
        let number = number_of(place)?;
        let told = Told {
            procedure,
            number,
            parent: parent_at(parents, place),
            used: policy_of(choice, flow, trace),
        };
        put_line(alloc, text, flow, trace, told)?;
    }
    Ok(())
}

// Appends the lines of a flow, and gives how many there are.
fn put_flow(
    alloc: Global,
    text: &mut Vec<u8>,
    choice: &Choice,
    procedure: u32,
    flow: &Flow,
) -> Result<usize, Memory>
    ensures lines { IsValidFlow flow.now → OnOk result ((lines : List ℕ) × (text.new.items ≡ text.old.items ++ lines)
        × IsFlowReport choice.now procedure flow.now lines) }
    ensures count { IfOk result (λ count. count ≡ length (traces_of choice.now.builder flow.now.nodes)) }
{
    let traces = build(alloc, choice.builder, flow)?;
    let parents = parents(alloc, flow, traces.as_slice())?;
    put_lines(
        alloc,
        text,
        choice,
        procedure,
        flow,
        traces.as_slice(),
        parents.as_slice(),
    )?;
    Ok(traces.len())
}

/// One line for each trace of each flow: the flow's number, the trace's number in its flow, how often its most frequent block
/// runs, the number of the trace above it or a hyphen, by what its values are given places (`plain`, `trivial`, `linear`,
/// `bottomup`), and the numbers of its blocks, with commas between them; and how many there are. Takes the time of the cut, and
/// time in proportion to the lines.
pub fn trace_report(alloc: Global, choice: &Choice, flows: &[Flow]) -> Result<Report, Memory>
    ensures lines { All IsValidFlow flows.now → IfOk result (λ report. IsReport choice.now 0 flows.now report.lines.items) }
    ensures count { IfOk result (λ report. report.traces ≡ traces_in choice.now.builder flows.now) }
{
    let mut lines = Vec::new(alloc);
    let mut traces: usize = 0;
    for place in 0..flows.len() {
        let procedure = number_of(place)?;
        let more = put_flow(alloc, &mut lines, choice, procedure, &flows[place])?;
        traces = total(traces, more)?;
    }
    Ok(Report { lines, traces })
}
