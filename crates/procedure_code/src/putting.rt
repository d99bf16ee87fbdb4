//! The words of copies, cells and ends, and their holes.

ghost use Rattle.std.specs.Prelude.{◌≡◌, ℕ, ◌+◌, ◌-◌, ◌<◌, ◌≤◌, ◌^◌, ◌++◌, map, length, min, true, OnOk, IfSome, IfNone};
ghost use Rattle.run_laws.specs.Layers.{whole_width, spread};
ghost use Rattle.a64_table.specs.Table.{word_of};
ghost use Rattle.placed_code.specs.Words.{where_is, copies_words, copy_word, op_words};
ghost use Rattle.size_limits.specs.Limits.{most_slots};
ghost use Rattle.placed_code.specs.Layout.{cell_width};
ghost use Rattle.link_words.specs.Fields.{InReach, entry_in};
ghost use Rattle.link_words.specs.Frames.{WhereFits, where_of};
ghost use Rattle.link_layout.specs.Spots.{copy_of, spot_of};
ghost use Rattle.link_blocks.specs.Fits.{number_fits};
ghost use Rattle.link_blocks.specs.Plans.{cell_in, block_in, placed_in};
ghost use Rattle.procedure_code.specs.Parts.{entry_at, clamped};
ghost use Rattle.procedure_code.specs.Measured.{parts_width};
ghost use Rattle.procedure_code.specs.Holes.{hole_in};
ghost use Rattle.procedure_pieces.specs.Code.{cell_code, parts_code};
ghost use Rattle.procedure_pieces.specs.Pieces.{cell_holes};

use crate::filling::Entries;
use crate::finding::push_holes;
use crate::holes::Hole;
use link_blocks::{Block, Cell, Copy, Plan, Spot};
use link_words::{Registers, Where, push_copy, push_end, push_operation};
use lir_core::Template;
use outside::Memory;

/// The place of a spot, where the frame has it.
fn where_is(plan: &Plan, spot: Spot) -> Option<Where>
    ensures some { IfSome result (λ at. where_is (placed_in plan.now) (spot_of spot) ≡ Some (where_of at)) }
    ensures none { IfNone result (where_is (placed_in plan.now) (spot_of spot) ≡ None) }
    ensures fits { IfSome result WhereFits }
{
    let outs = plan.frame.outs;
    match spot {
        Spot::Reg(number) if number < 16 => Some(Where::InReg(number)),
        Spot::Reg(_) => None,
        Spot::Home(value) => {
            let rank = plan.homes.rank(value)?;
            Some(Where::InSlot(outs + 1 + rank as u32))
        }
        Spot::Out(slot) if slot < outs => Some(Where::InSlot(slot)),
        Spot::Out(_) => None,
        Spot::Target => Some(Where::InReg(25)),
        Spot::Saved => Some(Where::InReg(16)),
    }
}

/// Appends the words of a copy. Most lists of copies are empty, so this stands apart from the loop over them.
#[inline(never)]
fn push_one(words: &mut Vec<u32>, plan: &Plan, copy: Copy) -> Result<(), Memory>
    ensures { OnOk result (words.new.items ≡ words.old.items ++ map word_of (copy_word (placed_in plan.now) (copy_of copy))) }
{
    let Some(to) = where_is(plan, copy.to) else {
        return Ok(());
    };
    let Some(from) = where_is(plan, copy.from) else {
        return Ok(());
    };
    push_copy(words, to, from)
}

/// Appends the words of copies.
pub(crate) fn push_copies(words: &mut Vec<u32>, plan: &Plan, copies: &[Copy]) -> Result<(), Memory>
    ensures { OnOk result (words.new.items ≡ words.old.items ++ map word_of (copies_words (placed_in plan.now) (map copy_of copies.now))) }
{
    for copy in copies {
        push_one(words, plan, *copy)?;
    }
    Ok(())
}

/// A procedure's number in an operation, or the last number.
fn clamped(last: usize, code: Template) -> Template
    ensures { result ≡ clamped last code }
{
    match code {
        Template::Call(number) => Template::Call(least(number, last)),
        Template::Code(number) => Template::Code(least(number, last)),
        _ => code,
    }
}

fn least(number: u32, last: usize) -> u32
    ensures { result ≡ min number last }
{
    (number as usize).min(last) as u32
}

/// Appends the words of an operation.
pub(crate) fn push_code(
    words: &mut Vec<u32>,
    entries: Entries,
    slots: u32,
    code: Template,
    registers: Registers,
) -> Result<(), Memory>
    requires procedures { InReach entries.procedures.now }
    requires routines { entries.routines < 2 ^ 17 }
    requires slots { slots ≤ most_slots }
    requires number { number_fits code ≡ true }
    requires near { length words.old.items < 2 ^ 18 }
    ensures { OnOk result (words.new.items ≡ words.old.items
        ++ map word_of (op_words (entry_at entries.entry.procedures.now) entries.entry.routines slots
        (length words.old.items) code registers.a registers.b registers.c registers.d)) }
{
    let last = entries.procedures.len().saturating_sub(1);
    let code = clamped(last, code);
    push_operation(
        words,
        entries.procedures,
        entries.routines,
        slots,
        code,
        registers,
    )
}

fn push_cell(
    words: &mut Vec<u32>,
    holes: &mut Vec<Hole>,
    entries: Entries,
    plan: &Plan,
    cell: &Cell,
) -> Result<(), Memory>
    requires procedures { InReach entries.procedures.now }
    requires routines { entries.routines < 2 ^ 17 }
    requires near { length words.old.items + cell_width (placed_in plan.now) 0 (cell_in cell.now) ≤ 2 ^ 18 }
    ensures words { OnOk result (words.new.items ≡ words.old.items ++ map word_of
        (cell_code (entry_at entries.entry.procedures.now) entries.entry.routines (placed_in plan.now) 0 (length words.old.items)
        (cell_in cell.now))) }
    ensures holes { OnOk result (map hole_in holes.new.items ≡ map hole_in holes.old.items ++ cell_holes (placed_in plan.now) 0 (length words.old.items) (cell_in cell.now)) }
{
    push_copies(words, plan, cell.copies.as_slice())?;
    push_holes(holes, words.len() as u32, cell.code, cell.registers.d)?;
    push_code(words, entries, plan.frame.slots, cell.code, cell.registers)
}

fn push_cells(
    words: &mut Vec<u32>,
    holes: &mut Vec<Hole>,
    entries: Entries,
    plan: &Plan,
    cells: &[Cell],
) -> Result<(), Memory>
    requires procedures { InReach entries.procedures.now }
    requires routines { entries.routines < 2 ^ 17 }
    requires near { length words.old.items + whole_width (cell_width (placed_in plan.now)) 0 (map cell_in cells.now) ≤ 2 ^ 18 }
    ensures words { OnOk result (words.new.items ≡ words.old.items
        ++ map word_of (spread (cell_code (entry_at entries.entry.procedures.now) entries.entry.routines (placed_in plan.now))
        (cell_width (placed_in plan.now)) 0 (length words.old.items) (map cell_in cells.now))) }
    ensures holes { OnOk result (map hole_in holes.new.items ≡ map hole_in holes.old.items ++ spread (cell_holes (placed_in plan.now))
        (cell_width (placed_in plan.now)) 0 (length words.old.items) (map cell_in cells.now)) }
{
    for cell in cells {
        push_cell(words, holes, entries, plan, cell)?;
    }
    Ok(())
}

/// Appends the words and the holes of a block, where block `next` falls next and the blocks begin at places.
pub(crate) fn push_parts(
    words: &mut Vec<u32>,
    holes: &mut Vec<Hole>,
    entries: Entries,
    places: &[u32],
    plan: &Plan,
    block: &Block,
    next: u32,
) -> Result<(), Memory>
    requires procedures { InReach entries.procedures.now }
    requires routines { entries.routines < 2 ^ 17 }
    requires places { InReach places.now }
    requires near { length words.old.items + parts_width (placed_in plan.now) next (block_in block.now) ≤ 2 ^ 18 }
    ensures words { OnOk result (words.new.items ≡ words.old.items
        ++ map word_of (parts_code (entry_at entries.entry.procedures.now) entries.entry.routines (entry_in places.now)
        (placed_in plan.now) next (length words.old.items) (block_in block.now))) }
    ensures holes { OnOk result (map hole_in holes.new.items ≡ map hole_in holes.old.items ++ spread (cell_holes (placed_in plan.now))
        (cell_width (placed_in plan.now)) 0 (length words.old.items) (block_in block.now).body) }
{
    push_cells(words, holes, entries, plan, block.cells.as_slice())?;
    push_copies(words, plan, block.copies.as_slice())?;
    push_end(
        words, plan.frame, places, next, &block.end, block.a, block.b,
    )
}
