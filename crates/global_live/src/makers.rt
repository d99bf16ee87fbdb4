//! The node that makes each value.

ghost use Rattle.std.specs.Prelude.{◌≡◌, ◌^◌, ◌<◌, IfOk, length, replicate, slice_set};
ghost use Rattle.block_runs.specs.Live.{defs_of, block_makes};
ghost use Rattle.lir_core.specs.Flows.{code_node, code_nodes};
ghost use Rattle.global_live.specs.Search.{made_in, makers_from, operations_of};

use lir_core::{Flow, Lir, Node};
use std::alloc::{AllocError, Global};

/// For each value the node that makes it, where each is made once; any number for one that no node makes.
pub(crate) fn makers(alloc: Global, flow: &Flow) -> Result<Vec<u32>, AllocError>
    requires { length flow.now.nodes < 2 ^ 32 }
    ensures { IfOk result (λ makers. makers.items ≡ makers_from 0 (code_nodes flow.now.nodes) (replicate flow.now.values 0)) }
{
    let mut makers = vec![in alloc; 0u32; flow.values as usize]?;
    for (number, node) in flow.nodes.as_slice().iter().enumerate() {
        add_node(&mut makers, node, number as u32);
    }
    Ok(makers)
}

// A node makes its parameters and what its operations make.
fn add_node(makers: &mut Vec<u32>, node: &Node, number: u32)
    ensures { makers.new.items ≡ made_in number (block_makes (code_node node.now)) makers.old.items }
{
    for value in node.params.as_slice() {
        add(makers, *value, number);
    }
    add_operations(makers, node.lirs.as_slice(), number);
}

fn add_operations(makers: &mut Vec<u32>, lirs: &[Lir], number: u32)
    ensures { makers.new.items ≡ made_in number (defs_of (operations_of lirs.now)) makers.old.items }
{
    for lir in lirs {
        if let Some(value) = lir.def {
            add(makers, value, number);
        }
    }
}

fn add(makers: &mut Vec<u32>, value: u32, number: u32)
    ensures { makers.new.items ≡ slice_set makers.old.items value number }
{
    if (value as usize) < makers.len() {
        makers[value as usize] = number;
    }
}
