//! The trace above each trace.

ghost use Rattle.std.specs.Prelude.{◌≡◌, ◌<◌, ◌^◌, length, replicate, slice_set, IfOk};
ghost use Rattle.lir_core.specs.Flows.{IsValidFlow};
ghost use Rattle.trace_build.specs.Parents.{AreBelow, AreParents, holders_from, held, lowest_of, parent_by};

use lir_core::{Flow, Trace};
use outside::Memory;
use std::alloc::{AllocError, Global};

/// For each trace the lowest-numbered one below it from which an edge leads into its head, if there is one. Takes time in
/// proportion to the nodes of the traces and the edges into their heads.
pub fn parents(alloc: Global, flow: &Flow, traces: &[Trace]) -> Result<Vec<Option<u32>>, Memory>
    ensures each { IfOk result (λ parents. length parents.items ≡ length traces.now) }
    ensures below { IfOk result (λ parents. AreBelow parents.items) }
    ensures parents { IsValidFlow flow.now → IfOk result (λ parents. AreParents flow.now traces.now parents.items) }
{
    if u32::try_from(traces.len()).is_err() {
        return Err(Memory);
    }
    let holders = holders(alloc, flow.nodes.len(), traces)?;
    let mut parents = Vec::with_capacity(alloc, traces.len())?;
    for (number, trace) in traces.iter().enumerate() {
        parents.push(parent(flow, holders.as_slice(), trace, number as u32))?;
    }
    Ok(parents)
}

// The parent of a trace of that number.
fn parent(flow: &Flow, holders: &[u32], trace: &Trace, number: u32) -> Option<u32>
    ensures { result ≡ parent_by flow.now.nodes holders.now trace.now.nodes number }
{
    let head = trace.nodes.as_slice().first()?;
    let node = flow.nodes.as_slice().get(*head as usize)?;
    let lowest = lowest(holders, node.preds.as_slice(), number);
    if lowest < number { Some(lowest) } else { None }
}

// The lowest number of a trace that has one of these nodes, if it is below a limit, else the limit.
fn lowest(holders: &[u32], nodes: &[u32], limit: u32) -> u32
    ensures { result ≡ lowest_of holders.now nodes.now limit }
{
    let mut lowest = limit;
    for node in nodes {
        if let Some(holder) = holders.get(*node as usize) {
            lowest = lowest.min(*holder);
        }
    }
    lowest
}

// For each node the lowest-numbered trace that has it; the number of traces where none has.
fn holders(alloc: Global, nodes: usize, traces: &[Trace]) -> Result<Vec<u32>, AllocError>
    requires { length traces.now < 2 ^ 32 }
    ensures { IfOk result (λ holders. holders.items ≡ holders_from 0 traces.now (replicate nodes (length traces.now))) }
{
    let mut holders = vec![in alloc; traces.len() as u32; nodes]?;
    let mut number = traces.len();
    while number > 0 {
        number -= 1;
        hold(
            holders.as_mut_slice(),
            traces[number].nodes.as_slice(),
            number as u32,
        );
    }
    Ok(holders)
}

// A trace has these nodes.
fn hold(holders: &mut [u32], nodes: &[u32], number: u32)
    ensures { holders.new ≡ held number nodes.now holders.old }
{
    for node in nodes {
        set(holders, *node, number);
    }
}

fn set(holders: &mut [u32], node: u32, number: u32)
    ensures { holders.new ≡ slice_set holders.old node number }
{
    if (node as usize) < holders.len() {
        holders[node as usize] = number;
    }
}
