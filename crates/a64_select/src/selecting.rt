//! From a procedure to its flow, which takes its lists over.

ghost use Rattle.std.specs.Prelude.{◌≡◌, ℕ, ◌+◌, ◌<◌, ◌≤◌, ◌^◌, ◌++◌, List, length, map, true, IfOk};
ghost use Rattle.std.specs.List.{list_all};
ghost use Rattle.block_runs.specs.Blocks.{successors};
ghost use Rattle.block_runs.specs.Valid.{is_call, all_below};
ghost use Rattle.ssa_core.specs.Validity.{IsValid};
ghost use Rattle.a64_select.specs.Selected.{lir_of, split_end, node_of, old_nodes, split_nodes, with_preds, selected};
ghost use Rattle.lir_core.specs.Flows.{code_nodes, preds_of, IsValidFlow};

use crate::edge_splits::{behind, behind_end, edge_nodes, redirected};
use crate::edges::{joins, set_preds};
use block_runs::{Code, End, Numbers};
use items::Items;
use lir_core::{Flow, Lir, Node};
use outside::Memory;
use ssa_core::{Block, Op, Proc};
use std::alloc::{AllocError, Global};

/// The flow of a procedure. The procedure is let go, and its lists become the flow's. Linear in its size.
pub fn select(alloc: Global, proc: Proc) -> Result<Flow, Memory>
    requires { IsValid proc }
    ensures selected { IfOk result (λ flow. flow ≡ selected proc) }
    ensures valid { IfOk result IsValidFlow }
{
    let Proc {
        blocks,
        values,
        args,
        counted,
        local_cells,
        local_bytes,
    } = proc;
    Ok(Flow {
        nodes: Items::from_vec(nodes_from(alloc, blocks.into_vec())?),
        values,
        args,
        counted,
        local_cells,
        local_bytes,
    })
}

// The nodes of a flow.
fn nodes_from(alloc: Global, blocks: Vec<Block>) -> Result<Vec<Node>, AllocError>
    requires targets { list_all (λ b. all_below (length blocks.items) (successors b.end)) blocks.items ≡ true }
    requires few { length blocks.items < 2 ^ 30 }
    ensures { IfOk result (λ nodes. nodes.items ≡ with_preds (preds_of (code_nodes (split_nodes blocks.items))) 0 (split_nodes blocks.items)) }
{
    let joins = joins(alloc, blocks.as_slice())?;
    let mut new = edge_nodes(alloc, blocks.as_slice(), joins.as_slice())?;
    let mut nodes = block_nodes(alloc, blocks, joins.as_slice())?;
    nodes.append(&mut new)?;
    set_preds(&mut nodes)?;
    Ok(nodes)
}

// The blocks' nodes, before their predecessors are set.
fn block_nodes(alloc: Global, blocks: Vec<Block>, joins: &[bool]) -> Result<Vec<Node>, AllocError>
    requires targets { list_all (λ b. all_below (length joins.now) (successors b.end)) blocks.items ≡ true }
    requires same { length joins.now ≡ length blocks.items }
    requires few { length blocks.items < 2 ^ 30 }
    ensures { IfOk result (λ nodes. nodes.items ≡ old_nodes joins.now (length blocks.items) blocks.items) }
{
    let mut nodes = Vec::with_capacity(alloc, blocks.len())?;
    let mut next = blocks.len() as u32;
    for block in blocks {
        let further = behind_end(joins, next, &block.end);
        nodes.push(node_from(alloc, joins, next, block)?)?;
        next = further;
    }
    Ok(nodes)
}

// A block's node, before its predecessors are set, if the next new node has this number.
fn node_from(alloc: Global, joins: &[bool], next: u32, block: Block) -> Result<Node, AllocError>
    requires targets { all_below (length joins.now) (successors block.end) ≡ true }
    requires few { next + 2 < 2 ^ 32 }
    ensures { IfOk result (λ node. node ≡ node_of joins.now next block) }
{
    let Block {
        params,
        ops,
        end,
        freq,
        enter,
    } = block;
    Ok(Node {
        params,
        lirs: lirs_from(alloc, ops)?,
        end: end_from(joins, next, end),
        freq,
        preds: Numbers::new(alloc),
        enter,
    })
}

fn lirs_from(alloc: Global, ops: Items<Op>) -> Result<Items<Lir>, AllocError>
    ensures { IfOk result (λ lirs. lirs ≡ map lir_of ops) }
{
    let mut lirs = Vec::with_capacity(alloc, ops.len())?;
    for op in ops.into_vec() {
        lirs.push(lir_from(op))?;
    }
    Ok(Items::from_vec(lirs))
}

// Whether an operation is a call, which leaves nothing in registers.
fn is_call(code: Code) -> bool
    ensures { result ≡ is_call code }
{
    matches!(
        code,
        Code::Call(_) | Code::CallAt | Code::Copy | Code::Zero | Code::Compare | Code::Svc(_)
    )
}

fn lir_from(op: Op) -> Lir
    ensures { result ≡ lir_of op }
{
    let Op { code, uses, def } = op;
    Lir {
        template: code,
        uses,
        def,
        call: is_call(code),
    }
}

// An end over the flow's nodes, if the next new node has this number.
fn end_from(joins: &[bool], next: u32, end: End) -> End
    requires targets { all_below (length joins.now) (successors end) ≡ true }
    requires few { next + 2 < 2 ^ 32 }
    ensures { result ≡ split_end joins.now next end }
{
    match end {
        End::Branch {
            cond,
            a,
            b,
            yes,
            no,
        } => End::Branch {
            cond,
            a,
            b,
            yes: redirected(joins, next, yes),
            no: redirected(joins, behind(joins, next, yes), no),
        },
        End::Nonzero { a, yes, no } => End::Nonzero {
            a,
            yes: redirected(joins, next, yes),
            no: redirected(joins, behind(joins, next, yes), no),
        },
        End::Jump { to, args } => End::Jump { to, args },
        End::Return(value) => End::Return(value),
        End::Trap(kind) => End::Trap(kind),
    }
}
