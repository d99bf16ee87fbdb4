//! The words of procedures.

ghost use Rattle.std.specs.Prelude.{◌≡◌, ◌+◌, ◌<◌, ◌≤◌, ◌^◌, ◌++◌, map, length, OnOk};
ghost use Rattle.run_laws.specs.Layers.{whole_width, spread};
ghost use Rattle.a64_table.specs.Table.{word_of};
ghost use Rattle.placed_code.specs.Placed.{block_of};
ghost use Rattle.placed_code.specs.Layout.{cell_width, placings, block_width, front_width};
ghost use Rattle.link_words.specs.Fields.{InReach, entry_in};
ghost use Rattle.link_blocks.specs.Plans.{placed_in};
ghost use Rattle.procedure_code.specs.Parts.{entry_at};
ghost use Rattle.procedure_code.specs.Measured.{parts_width};
ghost use Rattle.procedure_code.specs.Holes.{hole_in};
ghost use Rattle.procedure_pieces.specs.Code.{parts_code, front_code, block_code};
ghost use Rattle.procedure_pieces.specs.Pieces.{cell_holes, block_holes};

use crate::filling::Entries;
use crate::holes::Hole;
use crate::measuring::{first_in, no_block, to_the_first};
use crate::putting::{push_copies, push_parts};
use a64_instr::Bits;
use link_blocks::Plan;
use link_words::{push_end, push_prologue};
use outside::Memory;
use std::alloc::Global;

/// Appends the words before a procedure's blocks.
pub(crate) fn push_front(
    alloc: Global,
    words: &mut Vec<u32>,
    places: &[u32],
    plan: &Plan,
) -> Result<(), Memory>
    requires places { InReach places.now }
    requires near { length words.old.items + front_width (placed_in plan.now) ≤ 2 ^ 18 }
    ensures { OnOk result (words.new.items ≡ words.old.items ++ map word_of (front_code (entry_in places.now) (placed_in plan.now) (length words.old.items))) }
{
    push_prologue(words, plan.frame)?;
    push_copies(words, plan, plan.first.as_slice())?;
    let (a, b) = (Bits::new(0), Bits::new(0));
    let jump = to_the_first(alloc);
    push_end(words, plan.frame, places, first_in(plan, 0), &jump, a, b)
}

fn push_block(
    alloc: Global,
    words: &mut Vec<u32>,
    holes: &mut Vec<Hole>,
    entries: Entries,
    places: &[u32],
    plan: &Plan,
    number: u32,
    next: u32,
) -> Result<(), Memory>
    requires procedures { InReach entries.procedures.now }
    requires routines { entries.routines < 2 ^ 17 }
    requires places { InReach places.now }
    requires near { length words.old.items + parts_width (placed_in plan.now) next (block_of (placed_in plan.now) number) ≤ 2 ^ 18 }
    ensures words { OnOk result (words.new.items ≡ words.old.items
        ++ map word_of (parts_code (entry_at entries.entry.procedures.now) entries.entry.routines (entry_in places.now)
        (placed_in plan.now) next (length words.old.items) (block_of (placed_in plan.now) number))) }
    ensures holes { OnOk result (map hole_in holes.new.items ≡ map hole_in holes.old.items ++ spread (cell_holes (placed_in plan.now))
        (cell_width (placed_in plan.now)) 0 (length words.old.items) (block_of (placed_in plan.now) number).body) }
{
    match plan.blocks.as_slice().get(number as usize) {
        Some(block) => push_parts(words, holes, entries, places, plan, block, next),
        None => push_parts(words, holes, entries, places, plan, &no_block(alloc), next),
    }
}

/// Appends the words and the holes of a procedure's blocks, in the order of their code.
pub(crate) fn push_blocks(
    alloc: Global,
    words: &mut Vec<u32>,
    holes: &mut Vec<Hole>,
    entries: Entries,
    places: &[u32],
    plan: &Plan,
) -> Result<(), Memory>
    requires procedures { InReach entries.procedures.now }
    requires routines { entries.routines < 2 ^ 17 }
    requires places { InReach places.now }
    requires near { length words.old.items + whole_width (block_width (placed_in plan.now)) 0 (placings (placed_in plan.now)) ≤ 2 ^ 18 }
    ensures holes { OnOk result (map hole_in holes.new.items ≡ map hole_in holes.old.items ++ spread (block_holes (placed_in plan.now))
        (block_width (placed_in plan.now)) 0 (length words.old.items) (placings (placed_in plan.now))) }
    ensures words { OnOk result (words.new.items ≡ words.old.items
        ++ map word_of (spread (block_code (entry_at entries.entry.procedures.now) entries.entry.routines (entry_in places.now)
        (placed_in plan.now)) (block_width (placed_in plan.now)) 0 (length words.old.items) (placings (placed_in plan.now)))) }
{
    for (i, number) in plan.order.as_slice().iter().enumerate() {
        let next = first_in(plan, i + 1);
        push_block(alloc, words, holes, entries, places, plan, *number, next)?;
    }
    Ok(())
}
