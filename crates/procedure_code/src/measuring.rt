//! How many words procedures have.

ghost use Rattle.std.specs.Prelude.{◌≡◌, ℕ, ◌+◌, ◌<◌, ◌≤◌, ◌^◌, [], map, drop, length, IfOk, IfErr};
ghost use Rattle.run_laws.specs.Layers.{whole_width};
ghost use Rattle.placed_code.specs.Placed.{block_of};
ghost use Rattle.placed_code.specs.Layout.{cell_width, end_width, first_of, placings, block_width, front_width, proc_width};
ghost use Rattle.link_layout.specs.Widths.{widths_of};
ghost use Rattle.link_layout.specs.declared.fault.LayoutFault.TheVariants.{Limit};
ghost use Rattle.link_blocks.specs.Plans.{cell_in, block_in, placed_in};
ghost use Rattle.block_runs.specs.declared.end.End.TheVariants.{Jump};
ghost use Rattle.placed_code.specs.Placed.{no_block};
ghost use Rattle.link_blocks.specs.declared.plans.Plan.{Plan as Planned};
ghost use Rattle.procedure_code.specs.Measured.{parts_width, measured};

use a64_instr::Bits;
use items::Items;
use link_blocks::{Block, Cell, Plan};
use link_layout::{
    LayoutFault, copies_width, end_width, operation_width, procedure_width, prologue_width,
};
use lir_core::{Leave, Numbers};
use std::alloc::Global;

/// The most words that an image has.
const MOST: u32 = 262_144;

/// How many words stand before a procedure's blocks, and how many its blocks have, in the order of their code.
#[derive(Drop)]
pub(crate) struct Measure {
    pub(crate) front: u32,
    pub(crate) blocks: Items<u32>,
}

/// How many words the parts of a procedure have.
pub(crate) fn measure_of(alloc: Global, plan: &Plan) -> Result<Measure, LayoutFault>
    ensures measures { IfOk result (λ m. m ≡ measured plan.now) }
    ensures limit { IfErr result (λ fault. fault ≡ Limit → 2 ^ 18 < proc_width 0 (placed_in plan.now)) }
{
    let front = front_width(alloc, plan)?;
    let blocks = block_widths(alloc, plan)?;
    Ok(Measure {
        front,
        blocks: Items::from_vec(blocks),
    })
}

/// How many words a measured procedure has.
pub(crate) fn width(measure: &Measure) -> Result<u32, LayoutFault>
    ensures width { IfOk result (λ width. (plan : Planned) → measure.now ≡ measured plan → width ≡ proc_width 0 (placed_in plan)) }
    ensures fits { IfOk result (λ width. width ≤ 2 ^ 18) }
    ensures limit { IfErr result (λ fault. (plan : Planned) → measure.now ≡ measured plan → 2 ^ 18 < proc_width 0 (placed_in plan)) }
{
    procedure_width(measure.front, measure.blocks.as_slice())
}

/// A sum of words, where an image has room for them.
pub(crate) fn add(width: u32, more: u32) -> Result<u32, LayoutFault>
    ensures sum { IfOk result (λ all. all ≡ width + more) }
    ensures fits { IfOk result (λ all. all ≤ 2 ^ 18) }
    ensures limit { IfErr result (λ fault. 2 ^ 18 < width + more) }
{
    match width.checked_add(more) {
        Some(all) if all <= MOST => Ok(all),
        _ => Err(LayoutFault::Limit),
    }
}

fn front_width(alloc: Global, plan: &Plan) -> Result<u32, LayoutFault>
    ensures width { IfOk result (λ width. width ≡ front_width (placed_in plan.now)) }
    ensures limit { IfErr result (λ fault. 2 ^ 18 < front_width (placed_in plan.now)) }
{
    let copies = copies_width(&plan.homes, plan.frame.outs, plan.first.as_slice())?;
    let width = add(prologue_width(plan.frame), copies)?;
    add(
        width,
        end_width(plan.frame, first_in(plan, 0), &to_the_first(alloc)),
    )
}

/// A jump to block 0.
pub(crate) fn to_the_first(alloc: Global) -> Leave
    ensures { result ≡ Jump 0 [] }
{
    Leave::Jump {
        to: 0,
        args: Numbers::new(alloc),
    }
}

/// The number that stands in a procedure's order at an index; behind the last one stands the number that no block
/// has.
pub(crate) fn first_in(plan: &Plan, index: usize) -> u32
    ensures { result ≡ first_of (length plan.now.blocks) (drop index plan.now.order) }
{
    match plan.order.as_slice().get(index) {
        Some(number) => *number,
        None => plan.blocks.len() as u32,
    }
}

fn block_widths(alloc: Global, plan: &Plan) -> Result<Vec<u32>, LayoutFault>
    ensures widths { IfOk result (λ widths. widths.items ≡ widths_of (block_width (placed_in plan.now)) 0 (placings (placed_in plan.now))) }
    ensures limit { IfErr result (λ fault. fault ≡ Limit → 2 ^ 18 < whole_width (block_width (placed_in plan.now)) 0 (placings (placed_in plan.now))) }
{
    let mut widths = Vec::with_capacity(alloc, plan.order.len())?;
    for (i, number) in plan.order.as_slice().iter().enumerate() {
        let width = block_width(alloc, plan, *number, first_in(plan, i + 1))?;
        widths.push(width)?;
    }
    Ok(widths)
}

fn block_width(alloc: Global, plan: &Plan, number: u32, next: u32) -> Result<u32, LayoutFault>
    ensures width { IfOk result (λ width. width ≡ parts_width (placed_in plan.now) next (block_of (placed_in plan.now) number)) }
    ensures limit { IfErr result (λ fault. 2 ^ 18 < parts_width (placed_in plan.now) next (block_of (placed_in plan.now) number)) }
{
    match plan.blocks.as_slice().get(number as usize) {
        Some(block) => width_of(plan, block, next),
        None => width_of(plan, &no_block(alloc), next),
    }
}

/// A block that only returns. Takes no memory.
pub(crate) fn no_block(alloc: Global) -> Block
    ensures { block_in result ≡ no_block }
{
    Block {
        cells: Items::new(alloc),
        copies: Items::new(alloc),
        end: Leave::Return(None),
        a: Bits::new(0),
        b: Bits::new(0),
    }
}

fn width_of(plan: &Plan, block: &Block, next: u32) -> Result<u32, LayoutFault>
    ensures width { IfOk result (λ width. width ≡ parts_width (placed_in plan.now) next (block_in block.now)) }
    ensures limit { IfErr result (λ fault. 2 ^ 18 < parts_width (placed_in plan.now) next (block_in block.now)) }
{
    let cells = cells_width(plan, block.cells.as_slice())?;
    let copies = copies_width(&plan.homes, plan.frame.outs, block.copies.as_slice())?;
    let width = add(cells, copies)?;
    add(width, end_width(plan.frame, next, &block.end))
}

fn cells_width(plan: &Plan, cells: &[Cell]) -> Result<u32, LayoutFault>
    ensures width { IfOk result (λ width. width ≡ whole_width (cell_width (placed_in plan.now)) 0 (map cell_in cells.now)) }
    ensures fits { IfOk result (λ width. width ≤ 2 ^ 18) }
    ensures limit { IfErr result (λ fault. 2 ^ 18 < whole_width (cell_width (placed_in plan.now)) 0 (map cell_in cells.now)) }
{
    let mut width = 0;
    for cell in cells {
        width = add(width, cell_width(plan, cell)?)?;
    }
    Ok(width)
}

fn cell_width(plan: &Plan, cell: &Cell) -> Result<u32, LayoutFault>
    ensures width { IfOk result (λ width. width ≡ cell_width (placed_in plan.now) 0 (cell_in cell.now)) }
    ensures limit { IfErr result (λ fault. 2 ^ 18 < cell_width (placed_in plan.now) 0 (cell_in cell.now)) }
{
    let copies = copies_width(&plan.homes, plan.frame.outs, cell.copies.as_slice())?;
    add(copies, operation_width(plan.frame.slots, cell.code))
}
