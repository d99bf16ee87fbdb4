//! The results of a flow's traces.

ghost use Rattle.std.specs.Prelude.{◌≡◌, ℕ, List, ◌≤◌, ◌<◌, ◌==◌, ◌&&◌, Bool, [], true, false, None, length, drop, IfOk, OnOk, map};
ghost use Rattle.lir_core.specs.Flows.{code_nodes};
ghost use Rattle.lir_core.specs.Lines.{slots_of};
ghost use Rattle.lir_core.specs.Rows.{has_bit};
ghost use Rattle.alloc_audit.specs.declared.verdict.Verdict.TheVariants.{Unsound};
ghost use Rattle.alloc_audit.specs.Verdicts.{nodes_failure, is_long, result_failure, grounds_of};
ghost use Rattle.alloc_audit.specs.Parts.{TellsAll, TellsOne, IsFailure, verdict_at, grounds_in, numbered_failure};

use crate::node::{AuditedNode, NodePart, node_failure};
use crate::verdict::{Failure, Verdict};
use lir_core::{Flow, Items, Line, LiveSets, Places, RegisterList, Trace, TraceOut};
use outside::Memory;
use std::alloc::Global;

/// A flow, with what its results are held against.
#[derive(Clone, Copy)]
pub(crate) struct Audited<'a> {
    pub(crate) flow: &'a Flow,
    pub(crate) live: &'a LiveSets,
    pub(crate) registers: usize,
    pub(crate) slots: usize,
}

// The line at which a node fails, if it does; a trace has nodes of its flow alone.
fn failure_at(
    alloc: Global,
    audited: &Audited<'_>,
    number: u32,
    part: &NodePart<'_>,
) -> Result<Option<usize>, Memory>
    requires { 0 < audited.now.registers }
    ensures { IfOk result (λ o. o ≡ numbered_failure audited.now number part.now) }
{
    let Some(node) = audited.flow.nodes.as_slice().get(number as usize) else {
        return Err(Memory);
    };
    let at = AuditedNode {
        node,
        number,
        live: audited.live,
        registers: audited.registers,
        slots: audited.slots,
        values: audited.flow.values,
    };
    let failure = node_failure(alloc, &at, part)?;
    Ok(failure)
}

// The first node that fails, if some do.
fn nodes_failure(
    alloc: Global,
    audited: &Audited<'_>,
    numbers: &[u32],
    starts: &[Places],
    lines: &[Items<Line>],
    regs: &[RegisterList],
    ends: &[Places],
) -> Result<Option<Failure>, Memory>
    requires some { 0 < audited.now.registers }
    requires starts { length starts.now ≡ length numbers.now }
    requires lines { length lines.now ≡ length numbers.now }
    requires regs { length regs.now ≡ length numbers.now }
    requires ends { length ends.now ≡ length numbers.now }
    ensures { IfOk result (λ o. o ≡ nodes_failure (grounds_in audited.now numbers.now) 0 numbers.now starts.now lines.now regs.now ends.now) }
{
    for (at, number) in numbers.iter().enumerate() {
        let part = NodePart {
            start: &starts[at],
            lines: lines[at].as_slice(),
            named: regs[at].as_slice(),
            end: &ends[at],
        };
        let failure = failure_at(alloc, audited, *number, &part)?;
        if let Some(line) = failure {
            return Ok(Some(Failure { node: at, line }));
        }
    }
    Ok(None)
}

// Whether a result has an entry of each list for each node.
fn is_long(count: usize, out: &TraceOut) -> bool
    ensures { result ≡ is_long count out.now }
{
    out.starts.len() == count
        && out.ends.len() == count
        && out.lines.len() == count
        && out.regs.len() == count
}

fn is_of(number: usize, count: usize, out: &TraceOut) -> bool
    ensures { result ≡ ((out.now.trace == number) && is_long count out.now) }
{
    out.trace as usize == number && is_long(count, out)
}

// Where a trace's result fails, if it does.
fn result_failure(
    alloc: Global,
    audited: &Audited<'_>,
    trace: &Trace,
    number: usize,
    out: &TraceOut,
) -> Result<Option<Failure>, Memory>
    requires { 0 < audited.now.registers }
    ensures { IfOk result (λ o. o ≡ result_failure (grounds_in audited.now trace.now.nodes) number out.now) }
{
    if !is_of(number, trace.nodes.len(), out) {
        return Ok(Some(Failure { node: 0, line: 0 }));
    }
    let failure = nodes_failure(
        alloc,
        audited,
        trace.nodes.as_slice(),
        out.starts.as_slice(),
        out.lines.as_slice(),
        out.regs.as_slice(),
        out.ends.as_slice(),
    )?;
    Ok(failure)
}

/// A failure's verdict. No trace, node or line has so great a number.
pub(crate) fn unsound(trace: usize, node: usize, line: usize) -> Result<Verdict, Memory>
    ensures { IfOk result (λ v. v ≡ Unsound trace node line) }
{
    if trace > u32::MAX as usize || node > u32::MAX as usize || line > u32::MAX as usize {
        return Err(Memory);
    }
    Ok(Verdict::Unsound {
        trace: trace as u32,
        node: node as u32,
        line: line as u32,
    })
}

// Where a trace's result fails, if it does.
fn audit_trace(
    alloc: Global,
    audited: &Audited<'_>,
    trace: &Trace,
    number: usize,
    outs: &[TraceOut],
) -> Result<Option<Verdict>, Memory>
    requires some { 0 < audited.now.registers }
    requires slots { audited.now.slots ≡ slots_of (code_nodes audited.now.flow.now.nodes) }
    ensures told { IfOk result (TellsOne audited.now.registers audited.now.flow.now (has_bit audited.now.live.now) number trace.now outs.now) }
    ensures failure { IfOk result IsFailure }
{
    let Some(out) = outs.get(number) else {
        let missing = unsound(number, 0, 0)?;
        return Ok(Some(missing));
    };
    let Some(failure) = result_failure(alloc, audited, trace, number, out)? else {
        return Ok(None);
    };
    let verdict = unsound(number, failure.node, failure.line)?;
    Ok(Some(verdict))
}

/// The first failure in the results of a flow's traces, of which the first has a number.
pub(crate) fn audit_traces(
    alloc: Global,
    audited: &Audited<'_>,
    traces: &[Trace],
    first: usize,
    outs: &[TraceOut],
) -> Result<Option<Verdict>, Memory>
    requires some { 0 < audited.now.registers }
    requires slots { audited.now.slots ≡ slots_of (code_nodes audited.now.flow.now.nodes) }
    ensures told { IfOk result (TellsAll audited.now.registers audited.now.flow.now (has_bit audited.now.live.now) first traces.now outs.now) }
    ensures failure { IfOk result IsFailure }
{
    let mut number = first;
    for trace in traces {
        if let Some(verdict) = audit_trace(alloc, audited, trace, number, outs)? {
            return Ok(Some(verdict));
        }
        number = number.checked_add(1).ok_or(Memory)?;
    }
    Ok(None)
}
