//! The widths of a plan's parts.

ghost use Rattle.std.specs.Prelude.{◌≡◌, ◌+◌, ◌<◌, ◌^◌, ◌∷◌, [], ◌++◌, map, drop, length, IfOk, IfErr, OnOk};
ghost use Rattle.block_runs.specs.declared.end.End.TheVariants.{Jump};
ghost use Rattle.placed_code.specs.Placed.{no_block, block_of};
ghost use Rattle.placed_code.specs.Layout.{cell_width, end_width, first_of, front_width, proc_width};
ghost use Rattle.link_layout.specs.Widths.{widths_of};
ghost use Rattle.link_blocks.specs.Plans.{cell_in, block_in, placed_in};
ghost use Rattle.run_laws.specs.Layers.{whole_width};
ghost use Rattle.link_layout.specs.declared.fault.LayoutFault.TheVariants.{Limit};
ghost use Rattle.procedure_code.specs.Measured.{parts_width};
ghost use Rattle.line_words.specs.LineWidths.{block_widths, line_widths};

use a64_instr::Bits;
use items::Items;
use link_blocks::{Block, Cell, Plan};
use link_layout::{LayoutFault, copies_width, end_width, operation_width, prologue_width};
use lir_core::{Leave, Numbers};
use std::alloc::Global;

/// The most words that an image has.
const MOST: u32 = 262_144;

// A sum of words, where an image has room for them.
fn add(width: u32, more: u32) -> Result<u32, LayoutFault>
    ensures sum { IfOk result (λ all. all ≡ width + more) }
    ensures limit { IfErr result (λ fault. 2 ^ 18 < width + more) }
{
    match width.checked_add(more) {
        Some(all) if all <= MOST => Ok(all),
        _ => Err(LayoutFault::Limit),
    }
}

// A jump to block 0.
fn to_the_first(alloc: Global) -> Leave
    ensures { result ≡ Jump 0 [] }
{
    Leave::Jump {
        to: 0,
        args: Numbers::new(alloc),
    }
}

// A block that only returns. Takes no memory.
fn no_block(alloc: Global) -> Block
    ensures { block_in result ≡ no_block }
{
    Block {
        cells: Items::new(alloc),
        copies: Items::new(alloc),
        end: Leave::Return(None),
        a: Bits::new(0),
        b: Bits::new(0),
    }
}

// The number that stands in a procedure's order at an index; behind the last one stands the number that no block has.
fn first_in(plan: &Plan, index: usize) -> u32
    ensures { result ≡ first_of (length plan.now.blocks) (drop index plan.now.order) }
{
    match plan.order.as_slice().get(index) {
        Some(number) => *number,
        None => plan.blocks.len() as u32,
    }
}

fn front_width(alloc: Global, plan: &Plan) -> Result<u32, LayoutFault>
    ensures width { IfOk result (λ width. width ≡ front_width (placed_in plan.now)) }
    ensures limit { IfErr result (λ fault. 2 ^ 18 < front_width (placed_in plan.now)) }
{
    let copies = copies_width(&plan.homes, plan.frame.outs, plan.first.as_slice())?;
    let width = add(prologue_width(plan.frame), copies)?;
    add(
        width,
        end_width(plan.frame, first_in(plan, 0), &to_the_first(alloc)),
    )
}

fn cell_width(plan: &Plan, cell: &Cell) -> Result<u32, LayoutFault>
    ensures width { IfOk result (λ width. width ≡ cell_width (placed_in plan.now) 0 (cell_in cell.now)) }
    ensures limit { IfErr result (λ fault. 2 ^ 18 < cell_width (placed_in plan.now) 0 (cell_in cell.now)) }
{
    let copies = copies_width(&plan.homes, plan.frame.outs, cell.copies.as_slice())?;
    add(copies, operation_width(plan.frame.slots, cell.code))
}

// How many words a block's last copies and its end have, where a block falls next.
fn last_width(plan: &Plan, block: &Block, next: u32) -> Result<u32, LayoutFault>
    ensures width { IfOk result (λ width. width ≡ end_width (placed_in plan.now) next (block_in block.now)) }
    ensures limit { IfErr result (λ fault. 2 ^ 18 < end_width (placed_in plan.now) next (block_in block.now)) }
{
    let copies = copies_width(&plan.homes, plan.frame.outs, block.copies.as_slice())?;
    add(copies, end_width(plan.frame, next, &block.end))
}

fn push_cells(plan: &Plan, widths: &mut Vec<u32>, cells: &[Cell]) -> Result<(), LayoutFault>
    ensures widths { OnOk result (widths.new.items ≡ widths.old.items ++ widths_of (cell_width (placed_in plan.now)) 0 (map cell_in cells.now)) }
    ensures limit { IfErr result (λ fault. fault ≡ Limit → 2 ^ 18 < whole_width (cell_width (placed_in plan.now)) 0 (map cell_in cells.now)) }
{
    for cell in cells {
        let width = cell_width(plan, cell)?;
        widths.push(width)?;
    }
    Ok(())
}

fn push_block(
    plan: &Plan,
    widths: &mut Vec<u32>,
    block: &Block,
    next: u32,
) -> Result<(), LayoutFault>
    ensures widths { OnOk result (widths.new.items ≡ widths.old.items ++ (widths_of (cell_width (placed_in plan.now)) 0 (block_in block.now).body
        ++ end_width (placed_in plan.now) next (block_in block.now) ∷ [])) }
    ensures limit { IfErr result (λ fault. fault ≡ Limit → 2 ^ 18 < parts_width (placed_in plan.now) next (block_in block.now)) }
{
    push_cells(plan, widths, block.cells.as_slice())?;
    let width = last_width(plan, block, next)?;
    widths.push(width)?;
    Ok(())
}

fn push_block_at(
    alloc: Global,
    plan: &Plan,
    widths: &mut Vec<u32>,
    number: u32,
    next: u32,
) -> Result<(), LayoutFault>
    ensures widths { OnOk result (widths.new.items ≡ widths.old.items ++ block_widths (placed_in plan.now) (record { number = number; next = next })) }
    ensures limit { IfErr result (λ fault. fault ≡ Limit → 2 ^ 18 < parts_width (placed_in plan.now) next (block_of (placed_in plan.now) number)) }
{
    match plan.blocks.as_slice().get(number as usize) {
        Some(block) => push_block(plan, widths, block, next),
        None => push_block(plan, widths, &no_block(alloc), next),
    }
}

/// How many words the parts of a procedure have, in the order of its code: what stands before its blocks, and for each block its
/// operations, each with the copies before it, and its end with the copies before that. `Limit` comes only where they are
/// over 262,144 words, so that no image has them.
pub fn line_widths(alloc: Global, plan: &Plan) -> Result<Vec<u32>, LayoutFault>
    ensures widths { IfOk result (λ widths. widths.items ≡ line_widths (placed_in plan.now)) }
    ensures limit { IfErr result (λ fault. fault ≡ Limit → 2 ^ 18 < proc_width 0 (placed_in plan.now)) }
{
    let mut widths = Vec::new(alloc);
    let front = front_width(alloc, plan)?;
    widths.push(front)?;
    for (i, number) in plan.order.as_slice().iter().enumerate() {
        push_block_at(alloc, plan, &mut widths, *number, first_in(plan, i + 1))?;
    }
    Ok(widths)
}
