//! The plan of a procedure.

ghost use Rattle.std.specs.Prelude.{◌≡◌, ◌≢◌, ℕ, ◌+◌, ◌<◌, ◌∷◌, List, length, map, drop, get_or, flat_map, true, OnOk, IfOk, IfErr};
ghost use Rattle.placed_code.specs.Placed.{no_block};
ghost use Rattle.std.specs.List.{list_all};
ghost use Rattle.lir_core.specs.Flows.{code_node, node_at};
ghost use Rattle.trace_build.specs.Cuts.{lists_of, all_nodes, AllTraces};
ghost use Rattle.boundary_resolve.specs.Placing.{node_lines};
ghost use Rattle.boundary_resolve.specs.Edges.{AreSound};
ghost use Rattle.boundary_resolve.specs.declared.code_line.CodeLine.{CodeLine};
ghost use Rattle.boundary_resolve.specs.declared.code_line.CodeLine.TheVariants.{Node as Begins};
ghost use Rattle.placed_code.specs.Results.{placed, homes_of, with_cells, with_copies};
ghost use Rattle.linked_flows.specs.Allocations.{Cut, steps_of, allocated};
ghost use Rattle.link_layout.specs.Spots.{copy_of};
ghost use Rattle.link_blocks.specs.Fits.{node_fits, numbers_fit};
ghost use Rattle.link_blocks.specs.Plans.{cell_in, block_in, placed_in, plain};
ghost use Rattle.link_blocks.specs.Ahead.{block_ahead, behind_block, AreAllDistinct};
ghost use Rattle.link_blocks.specs.Laid.{IsCutOf, Fits, Lays, AreLaid, AreAhead, HasRead};
ghost use Rattle.link_blocks.specs.declared.fault.PlanFault.TheVariants.{Misfit};

use crate::blocks::{block_of, slots_of};
use crate::fault::PlanFault;
use crate::fits::{numbers_fit, registers_fit};
use crate::plans::{Block, Cell, Plan};
use crate::reading::push_edges;
use a64_instr::Bits;
use boundary_resolve::CodeLine;
use items::Items;
use link_layout::{Copy, Ranks, add_homes};
use link_words::Frame;
use lir_core::{Flow, Leave, Node, RegisterList, TraceOut};
use outside::Memory;
use size_limits::MOST_SLOTS;
use std::alloc::{AllocError, Global};
use value_sets::ValueSet;

/// The most slots for arguments of calls.
const MOST_OUTS: usize = 20;

impl Plan {
    /// The plan of a procedure from its lines in code order, and the results of its traces. `Misfit` comes where a number
    /// or a register fits no instruction, or a frame has over 8,192 slots.
    pub fn of(
        alloc: Global,
        flow: &Flow,
        lines: &[CodeLine],
        outs: &[TraceOut],
    ) -> Result<Plan, PlanFault>
        ensures plan { (k : ℕ) (c : Cut) → IsCutOf k flow.now lines.now outs.now c → IfOk result (λ plan. placed_in plan ≡ plain (placed steps_of (allocated c))) }
        ensures fits { IfOk result (λ plan. numbers_fit flow.now ≡ true) }
        ensures misfit { IfErr result (λ fault. fault ≡ Misfit → (k : ℕ) (c : Cut) → IsCutOf k flow.now lines.now outs.now c → Fits c → ⊥) }
    {
        let nodes = flow.nodes.as_slice();
        let slots = slots_of(nodes);
        if nodes.len() >= 4_294_967_296 || flow.local_bytes >= 16_777_216 {
            return Err(PlanFault::Misfit);
        }
        if slots > MOST_OUTS {
            return Err(PlanFault::Misfit);
        }
        if !numbers_fit(flow) || !registers_fit(outs) {
            return Err(PlanFault::Misfit);
        }
        let mut first = Vec::new(alloc);
        let at = push_edges(&mut first, lines, 0)?;
        let laid = laid_out(alloc, nodes, lines, at, outs)?;
        let homes = homes_of(alloc, first.as_slice(), laid.blocks.as_slice())?;
        if homes.count() + slots >= MOST_SLOTS {
            return Err(PlanFault::Misfit);
        }
        let outs = slots as u32;
        let frame = Frame {
            counted: flow.counted,
            slots: outs + 1 + homes.count() as u32,
            outs,
            cells: flow.local_cells,
            bytes: flow.local_bytes as u32,
        };
        Ok(Plan {
            frame,
            homes,
            first: Items::from_vec(first),
            blocks: Items::from_vec(laid.blocks),
            order: Items::from_vec(laid.order),
        })
    }
}

/// The blocks of nodes by their numbers, empty until they are read, and the numbers in the order of the lines.
#[derive(Drop)]
pub(crate) struct Laid {
    pub(crate) blocks: Vec<Block>,
    pub(crate) order: Vec<u32>,
}

/// The blocks of all nodes from their lines.
fn laid_out(
    alloc: Global,
    nodes: &[Node],
    lines: &[CodeLine],
    from: usize,
    outs: &[TraceOut],
) -> Result<Laid, Memory>
    requires { list_all (λ n. node_fits n) nodes.now ≡ true }
    ensures each { IfOk result (λ laid. length laid.blocks.items ≡ length nodes.now) }
    ensures laid { (k : ℕ) (c : Cut) → nodes.now ≡ c.flow.nodes → outs.now ≡ c.outs → AreSound k c.flow c.traces c.outs
        → AllTraces c.flow (lists_of c.traces) → AreAllDistinct lines.now
        → drop from lines.now ≡ flat_map (node_lines c.flow c.traces c.outs) (all_nodes (lists_of c.traces))
        → IfOk result (λ laid. (laid.order.items ≡ all_nodes (lists_of c.traces)) × AreLaid c laid) }
{
    let mut laid = Laid {
        blocks: empty_blocks(alloc, nodes.len())?,
        order: Vec::with_capacity(alloc, nodes.len())?,
    };
    let mut at = from;
    for out in outs {
        at = lay_all(alloc, &mut laid, nodes, out.regs.as_slice(), lines, at)?;
    }
    Ok(laid)
}

/// So many empty blocks.
fn empty_blocks(alloc: Global, count: usize) -> Result<Vec<Block>, AllocError>
    ensures { IfOk result (λ blocks. length blocks.items ≡ count) }
{
    let mut blocks = Vec::with_capacity(alloc, count)?;
    for _number in 0..count {
        blocks.push(empty(alloc))?;
    }
    Ok(blocks)
}

/// Reads the lines of nodes, with the registers named for them, from a line on; gives the line behind them.
fn lay_all(
    alloc: Global,
    laid: &mut Laid,
    nodes: &[Node],
    rows: &[RegisterList],
    lines: &[CodeLine],
    from: usize,
) -> Result<usize, Memory>
    requires { list_all (λ n. node_fits n) nodes.now ≡ true }
    ensures each { length laid.new.blocks.items ≡ length laid.old.blocks.items }
    ensures read { (k : ℕ) (c : Cut) (ns : List ℕ) (tail : List CodeLine) → nodes.now ≡ c.flow.nodes → AreSound k c.flow c.traces c.outs
        → AreAllDistinct lines.now → AreLaid c laid.old → AreAhead c ns rows.now (drop from lines.now) tail
        → IfOk result (λ at. HasRead c ns laid.old laid.new (drop at lines.now) tail) }
{
    let mut at = from;
    for row in rows {
        at = lay(alloc, laid, nodes, row.as_slice(), lines, at)?;
    }
    Ok(at)
}

/// Reads the lines of a node, with the registers named for it; gives the line behind them.
fn lay(
    alloc: Global,
    laid: &mut Laid,
    nodes: &[Node],
    named: &[u8],
    lines: &[CodeLine],
    at: usize,
) -> Result<usize, Memory>
    requires { list_all (λ n. node_fits n) nodes.now ≡ true }
    ensures each { length laid.new.blocks.items ≡ length laid.old.blocks.items }
    ensures read { (n : ℕ) (ls : List CodeLine) → drop at lines.now ≡ Begins n ∷ ls → n < length nodes.now → AreAllDistinct lines.now
        → IfOk result (λ behind. (drop behind lines.now ≡ behind_block (code_node (node_at nodes.now n)) ls)
        × Lays laid.old laid.new n (block_ahead (code_node (node_at nodes.now n)) named.now ls)) }
{
    let Some(CodeLine::Node(number)) = lines.get(at) else {
        return Ok(at);
    };
    let Some(node) = nodes.get(*number as usize) else {
        return Ok(at);
    };
    let (block, behind) = block_of(alloc, node, named, lines, at + 1)?;
    laid.order.push(*number)?;
    put(&mut laid.blocks, *number, block);
    Ok(behind)
}

/// The block of a number, where there is room for one.
fn put(blocks: &mut Vec<Block>, number: u32, block: Block)
    ensures each { length blocks.new.items ≡ length blocks.old.items }
    ensures here { number < length blocks.old.items → get_or (map block_in blocks.new.items) number no_block ≡ block_in block }
    ensures others { (m : ℕ) → m ≢ number → get_or (map block_in blocks.new.items) m no_block ≡ get_or (map block_in blocks.old.items) m no_block }
{
    let number = number as usize;
    if number < blocks.len() {
        blocks[number] = block;
    }
}

fn empty(alloc: Global) -> Block
    ensures { block_in result ≡ no_block }
{
    Block {
        cells: Items::new(alloc),
        copies: Items::new(alloc),
        end: Leave::Return(None),
        a: Bits::new(0),
        b: Bits::new(0),
    }
}

/// The homes of all copies of a procedure.
fn homes_of(alloc: Global, first: &[Copy], blocks: &[Block]) -> Result<Ranks, AllocError>
    ensures { IfOk result (λ homes. homes ≡ homes_of (map copy_of first.now) (map block_in blocks.now)) }
{
    let mut homes = ValueSet::new(alloc);
    let mut i = blocks.len();
    while i > 0 {
        i -= 1;
        add_block(&mut homes, &blocks[i])?;
    }
    add_homes(&mut homes, first)?;
    Ranks::of_values(alloc, &homes)
}

/// Adds the homes of a block to those of the blocks behind it.
fn add_block(homes: &mut ValueSet, block: &Block) -> Result<(), AllocError>
    ensures { OnOk result (homes.new ≡ with_cells (map cell_in block.now.cells) (with_copies (map copy_of block.now.copies) homes.old)) }
{
    add_homes(homes, block.copies.as_slice())?;
    add_cells(homes, block.cells.as_slice())
}

/// Adds the homes of cells to those of the copies behind them.
fn add_cells(homes: &mut ValueSet, cells: &[Cell]) -> Result<(), AllocError>
    ensures { OnOk result (homes.new ≡ with_cells (map cell_in cells.now) homes.old) }
{
    let mut i = cells.len();
    while i > 0 {
        i -= 1;
        add_homes(homes, cells[i].copies.as_slice())?;
    }
    Ok(())
}
