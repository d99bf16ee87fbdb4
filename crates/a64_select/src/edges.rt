//! Edges: to which nodes an end leads, and from which nodes edges lead to one.

ghost use Rattle.std.specs.Prelude.{◌≡◌, ℕ, ◌+◌, ◌<◌, ◌≤◌, ◌^◌, List, [], ◌∷◌, ◌++◌, length, IfOk, OnOk, true, option_to_list, slice_index, slice_index_or, map, nat_le};
ghost use Rattle.std.specs.List.{list_all};
ghost use Rattle.block_runs.specs.Blocks.{successors};
ghost use Rattle.block_runs.specs.Valid.{all_below};
ghost use Rattle.ssa_core.specs.Procedures.{code_blocks};
ghost use Rattle.lir_core.specs.Lines.{AllBelow};
ghost use Rattle.lir_core.specs.Flows.{code_nodes, preds_of, no_node};
ghost use Rattle.a64_select.specs.Selected.{joins_of, with_preds};
ghost use Rattle.a64_select.specs.Making.{two_targets, different_targets, targets_in, counted, preceded, counts_of};

use block_runs::End;
use lir_core::Node;
use ssa_core::Block;
use std::alloc::{AllocError, Global};

/// The nodes to which an end leads, each once.
#[derive(Clone, Copy)]
struct Reached {
    first: Option<u32>,
    second: Option<u32>,
}

fn targets(end: &End) -> Reached
    ensures { targets_in result.first result.second ≡ different_targets end.now }
{
    match end {
        End::Jump { to, .. } => Reached {
            first: Some(*to),
            second: None,
        },
        End::Branch { yes, no, .. } => two_targets(*yes, *no),
        End::Nonzero { yes, no, .. } => two_targets(*yes, *no),
        End::Return(_) | End::Trap(_) => Reached {
            first: None,
            second: None,
        },
    }
}

fn two_targets(yes: u32, no: u32) -> Reached
    ensures { targets_in result.first result.second ≡ two_targets yes no }
{
    Reached {
        first: Some(yes),
        second: if yes == no { None } else { Some(no) },
    }
}

/// Counts one more edge to a node, if there is one.
fn count_one(counts: &mut [u32], to: Option<u32>)
    requires target { AllBelow (length counts.old) (option_to_list to) }
    requires few { (k : ℕ) → slice_index counts.old k + 1 < 2 ^ 32 }
    ensures { counts.new ≡ counted (option_to_list to) counts.old }
{
    if let Some(to) = to {
        counts[to as usize] += 1;
    }
}

/// Counts one more edge to each node that is reached.
fn count_reached(counts: &mut [u32], reached: Reached)
    requires targets { AllBelow (length counts.old) (targets_in reached.first reached.second) }
    requires few { (k : ℕ) → slice_index counts.old k + 2 < 2 ^ 32 }
    ensures { counts.new ≡ counted (targets_in reached.first reached.second) counts.old }
{
    count_one(counts, reached.first);
    count_one(counts, reached.second);
}

/// How many nodes lead to each block.
fn counts(alloc: Global, blocks: &[Block]) -> Result<Vec<u32>, AllocError>
    requires targets { list_all (λ b. all_below (length blocks.now) (successors b.end)) blocks.now ≡ true }
    requires few { length blocks.now < 2 ^ 30 }
    ensures { IfOk result (λ counts. counts.items ≡ counts_of (code_blocks blocks.now)) }
{
    let mut counts = vec![in alloc; 0u32; blocks.len()]?;
    for block in blocks {
        count_reached(&mut counts, targets(&block.end));
    }
    Ok(counts)
}

/// Which numbers are above 1.
fn above_one(alloc: Global, counts: &[u32]) -> Result<Vec<bool>, AllocError>
    ensures { IfOk result (λ joins. joins.items ≡ map (λ n. nat_le 2 n) counts.now) }
{
    counts.iter().map(|n| 2 <= *n).collect(alloc)
}

/// For each block, whether several blocks lead to it.
pub fn joins(alloc: Global, blocks: &[Block]) -> Result<Vec<bool>, AllocError>
    requires targets { list_all (λ b. all_below (length blocks.now) (successors b.end)) blocks.now ≡ true }
    requires few { length blocks.now < 2 ^ 30 }
    ensures { IfOk result (λ joins. joins.items ≡ joins_of (code_blocks blocks.now)) }
{
    let counts = counts(alloc, blocks)?;
    above_one(alloc, counts.as_slice())
}

/// Notes one more predecessor of a node, if there is one.
fn add_pred(nodes: &mut [Node], to: Option<u32>, from: u32) -> Result<(), AllocError>
    requires target { AllBelow (length nodes.old) (option_to_list to) }
    ensures { OnOk result (nodes.new ≡ preceded from (option_to_list to) nodes.old) }
{
    if let Some(to) = to {
        nodes[to as usize].preds.push(from)?;
    }
    Ok(())
}

/// Notes one more predecessor of each node that is reached.
fn add_preds(nodes: &mut [Node], reached: Reached, from: u32) -> Result<(), AllocError>
    requires targets { AllBelow (length nodes.old) (targets_in reached.first reached.second) }
    ensures { OnOk result (nodes.new ≡ preceded from (targets_in reached.first reached.second) nodes.old) }
{
    add_pred(nodes, reached.first, from)?;
    add_pred(nodes, reached.second, from)
}

/// Notes all predecessors: nodes have none yet.
pub fn set_preds(nodes: &mut [Node]) -> Result<(), AllocError>
    requires targets { list_all (λ n. all_below (length nodes.old) (successors n.end)) nodes.old ≡ true }
    requires none { (k : ℕ) → k < length nodes.old → (slice_index_or nodes.old k no_node).preds ≡ [] }
    requires few { length nodes.old < 2 ^ 32 }
    ensures { OnOk result (nodes.new ≡ with_preds (preds_of (code_nodes nodes.old)) 0 nodes.old) }
{
    for i in 0..nodes.len() {
        let reached = targets(&nodes[i].end);
        add_preds(nodes, reached, i as u32)?;
    }
    Ok(())
}
