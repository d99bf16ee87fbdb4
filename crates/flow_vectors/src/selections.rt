//! Whether procedures are valid, and the flows of those that are.

use crate::procs::proc_of;
use crate::push_list;
use a64_select::select;
use lir_core::{Flow, Node};
use outside::Memory;
use ssa_core::Proc;
use ssa_valid::is_valid;
use std::alloc::{AllocError, Global};
use vector_texts::{push_end, push_optional};

/// Adds a node: its frequency, the node that enters it, its parameters and predecessors, its operations' values, each as
/// what it makes and what it reads, calls marked by `!`, and its end.
fn push_node(text: &mut String, node: &Node) -> Result<(), AllocError> {
    let freq = node.freq;
    write!(text, " node {freq}")?;
    push_optional(text, node.enter)?;
    text.push_str(" ")?;
    push_list(text, node.params.as_slice())?;
    text.push_str(" ")?;
    push_list(text, node.preds.as_slice())?;
    for lir in node.lirs.as_slice() {
        text.push_str(if lir.call { " op!" } else { " op" })?;
        push_optional(text, lir.def)?;
        text.push_str(" ")?;
        push_list(text, lir.uses.as_slice())?;
    }
    push_end(text, &node.end)
}

fn flow_line(alloc: Global, flow: &Flow) -> Result<String, AllocError> {
    let mut text = String::from_str(alloc, "valid")?;
    for node in flow.nodes.as_slice() {
        push_node(&mut text, node)?;
    }
    Ok(text)
}

/// `invalid`, or `valid` with the nodes of the procedure's flow.
pub(crate) fn selection(alloc: Global, proc: Proc) -> Result<String, Memory> {
    if !is_valid(alloc, &proc)? {
        return Ok(String::from_str(alloc, "invalid")?);
    }
    let flow = select(alloc, proc)?;
    Ok(flow_line(alloc, &flow)?)
}

/// How often a procedure was found valid, tried so often.
pub(crate) fn times_valid(alloc: Global, proc: &Proc, times: u32) -> Result<usize, Memory> {
    let mut count = 0;
    for _ in 0..times {
        if is_valid(alloc, proc)? {
            count = proc.blocks.len();
        }
    }
    Ok(count)
}

/// How many nodes the flow of the valid procedure in a line has, read and made so often; 0 for another procedure.
pub(crate) fn nodes_selected(alloc: Global, line: &str, times: u32) -> Result<usize, Memory> {
    let mut count = 0;
    for _ in 0..times {
        let proc = proc_of(alloc, line)?;
        if !is_valid(alloc, &proc)? {
            return Ok(0);
        }
        count = select(alloc, proc)?.nodes.len();
    }
    Ok(count)
}
