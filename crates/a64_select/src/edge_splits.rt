//! The nodes on edges from a block with two successors to one with several predecessors.

ghost use Rattle.std.specs.Prelude.{◌≡◌, ◌+◌, ◌<◌, ◌^◌, [], ◌∷◌, ◌++◌, length, map, OnOk, IfOk, filter, true};
ghost use Rattle.std.specs.List.{list_all};
ghost use Rattle.block_runs.specs.Blocks.{successors};
ghost use Rattle.block_runs.specs.Valid.{all_below};
ghost use Rattle.a64_select.specs.Selected.{is_join, split_targets, redirected, behind, edge_node, new_nodes};

use block_runs::{End, Numbers};
use items::Items;
use lir_core::Node;
use ssa_core::Block;
use std::alloc::{AllocError, Global};

/// Where an edge to a block leads, if the next new node has this number.
pub(crate) fn redirected(joins: &[bool], next: u32, to: u32) -> u32
    requires { to < length joins.now }
    ensures { result ≡ redirected joins.now next to }
{
    if joins[to as usize] { next } else { to }
}

/// The next new node's number behind an edge to a block.
pub(crate) fn behind(joins: &[bool], next: u32, to: u32) -> u32
    requires target { to < length joins.now }
    requires few { next + 1 < 2 ^ 32 }
    ensures { result ≡ behind joins.now next to }
{
    if joins[to as usize] { next + 1 } else { next }
}

/// A node on an edge to a block, from one of that frequency.
fn edge_node(alloc: Global, blocks: &[Block], freq: u64, to: u32) -> Node
    requires { to < length blocks.now }
    ensures { result ≡ edge_node blocks.now freq to }
{
    Node {
        params: Numbers::new(alloc),
        lirs: Items::new(alloc),
        end: End::Jump {
            to,
            args: Numbers::new(alloc),
        },
        freq: freq.min(blocks[to as usize].freq),
        preds: Numbers::new(alloc),
        enter: None,
    }
}

/// Adds a node on an edge to a block, where several lead to it.
fn add_edge_node(
    alloc: Global,
    nodes: &mut Vec<Node>,
    blocks: &[Block],
    joins: &[bool],
    freq: u64,
    to: u32,
) -> Result<(), AllocError>
    requires target { to < length blocks.now }
    requires same { length joins.now ≡ length blocks.now }
    ensures { OnOk result (nodes.new.items ≡ nodes.old.items ++ map (edge_node blocks.now freq) (filter (is_join joins.now) (to ∷ []))) }
{
    if joins[to as usize] {
        nodes.push(edge_node(alloc, blocks, freq, to))?;
    }
    Ok(())
}

/// Adds the nodes on the edges of a test.
fn add_two_nodes(
    alloc: Global,
    nodes: &mut Vec<Node>,
    blocks: &[Block],
    joins: &[bool],
    freq: u64,
    yes: u32,
    no: u32,
) -> Result<(), AllocError>
    requires targets { (yes < length blocks.now) × (no < length blocks.now) }
    requires same { length joins.now ≡ length blocks.now }
    ensures { OnOk result (nodes.new.items ≡ nodes.old.items ++ map (edge_node blocks.now freq) (filter (is_join joins.now) (yes ∷ no ∷ []))) }
{
    add_edge_node(alloc, nodes, blocks, joins, freq, yes)?;
    add_edge_node(alloc, nodes, blocks, joins, freq, no)
}

/// Adds the nodes on the edges of an end.
fn add_edge_nodes(
    alloc: Global,
    nodes: &mut Vec<Node>,
    blocks: &[Block],
    joins: &[bool],
    freq: u64,
    end: &End,
) -> Result<(), AllocError>
    requires targets { all_below (length blocks.now) (successors end.now) ≡ true }
    requires same { length joins.now ≡ length blocks.now }
    ensures { OnOk result (nodes.new.items ≡ nodes.old.items ++ map (edge_node blocks.now freq) (split_targets joins.now end.now)) }
{
    match end {
        End::Branch { yes, no, .. } => {
            add_two_nodes(alloc, nodes, blocks, joins, freq, *yes, *no)
        }
        End::Nonzero { yes, no, .. } => {
            add_two_nodes(alloc, nodes, blocks, joins, freq, *yes, *no)
        }
        End::Jump { .. } | End::Return(_) | End::Trap(_) => Ok(()),
    }
}

/// The nodes on edges, before their predecessors are set.
pub(crate) fn edge_nodes(
    alloc: Global,
    blocks: &[Block],
    joins: &[bool],
) -> Result<Vec<Node>, AllocError>
    requires targets { list_all (λ b. all_below (length blocks.now) (successors b.end)) blocks.now ≡ true }
    requires same { length joins.now ≡ length blocks.now }
    ensures { IfOk result (λ nodes. nodes.items ≡ new_nodes joins.now blocks.now blocks.now) }
{
    let mut nodes = Vec::new(alloc);
    for block in blocks {
        add_edge_nodes(alloc, &mut nodes, blocks, joins, block.freq, &block.end)?;
    }
    Ok(nodes)
}

/// The next new node's number behind the edges of an end.
pub(crate) fn behind_end(joins: &[bool], next: u32, end: &End) -> u32
    requires targets { all_below (length joins.now) (successors end.now) ≡ true }
    requires few { next + 2 < 2 ^ 32 }
    ensures { result ≡ next + length (split_targets joins.now end.now) }
{
    match end {
        End::Branch { yes, no, .. } | End::Nonzero { yes, no, .. } => {
            behind(joins, behind(joins, next, *yes), *no)
        }
        End::Jump { .. } | End::Return(_) | End::Trap(_) => next,
    }
}
