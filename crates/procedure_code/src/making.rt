//! The piece of a plan.

ghost use Rattle.std.specs.Prelude.{◌≡◌, ℕ, ◌+◌, ◌-◌, ◌<◌, ◌≤◌, ◌^◌, List, [], ◌∷◌, map, length, IfOk, IfErr};
ghost use Rattle.placed_code.specs.Placed.{Placed};
ghost use Rattle.placed_code.specs.Layout.{all_words, procedures_at};
ghost use Rattle.link_words.specs.Fields.{InReach, entry_in};
ghost use Rattle.link_blocks.specs.Plans.{placed_in};
ghost use Rattle.link_layout.specs.declared.fault.LayoutFault.TheVariants.{Limit};
ghost use Rattle.procedure_code.specs.Parts.{IsWhole};
ghost use Rattle.procedure_code.specs.Measured.{measured};
ghost use Rattle.procedure_code.specs.Views.{piece_in};
ghost use Rattle.procedure_pieces.specs.Code.{block_from};
ghost use Rattle.procedure_pieces.specs.Pieces.{piece_of};

use crate::filling::Entries;
use crate::measuring::{Measure, measure_of, width};
use crate::pieces::Piece;
use crate::writing::{push_blocks, push_front};
use link_blocks::Plan;
use link_layout::{LayoutFault, block_places};
use std::alloc::{AllocError, Global};

/// The piece of a plan, or `Limit` where an image of it alone is over 262,144 words. Takes time in proportion to the
/// words, and n log n for n homes.
pub fn piece_of(alloc: Global, plan: &Plan) -> Result<Piece, LayoutFault>
    ensures piece { IsWhole (placed_in plan.now) → IfOk result (λ piece. piece_in piece ≡ piece_of (placed_in plan.now)) }
    ensures limit { IfErr result (λ fault. fault ≡ Limit → 2 ^ 18 < length (all_words (placed_in plan.now ∷ []))) }
{
    let measure = measure_of(alloc, plan)?;
    let width = width(&measure)?;
    let places = places_of(alloc, plan, &measure)?;
    let mut words = Vec::with_capacity(alloc, width as usize)?;
    let mut holes = Vec::new(alloc);
    let entries = Entries {
        procedures: &[],
        routines: 0,
    };
    push_front(alloc, &mut words, places.as_slice(), plan)?;
    push_blocks(
        alloc,
        &mut words,
        &mut holes,
        entries,
        places.as_slice(),
        plan,
    )?;
    Ok(Piece {
        counted: plan.frame.counted,
        frame: 8 * plan.frame.slots,
        words,
        holes,
    })
}

/// Where the blocks of a procedure begin, counted from its first word.
fn places_of(alloc: Global, plan: &Plan, measure: &Measure) -> Result<Vec<u32>, LayoutFault>
    requires measured { measure.now ≡ measured plan.now }
    requires front { measure.now.front ≤ 2 ^ 18 }
    ensures places { IsWhole (placed_in plan.now) → IfOk result (λ places. (t : ℕ) → t < length (placed_in plan.now).blocks → entry_in places.items t ≡ block_from (placed_in plan.now) t) }
    ensures reach { IfOk result (λ places. InReach places.items) }
    ensures limit { IfErr result (λ fault. fault ≡ Limit → 2 ^ 18 < length (all_words (placed_in plan.now ∷ []))) }
{
    let base = base_of(plan);
    let count = plan.blocks.len() as u32;
    let order = plan.order.as_slice();
    let first = base + measure.front;
    let found = block_places(alloc, first, order, measure.blocks.as_slice(), count)?;
    let places = from_base(alloc, found.as_slice(), base)?;
    Ok(places)
}

/// Where a procedure begins in an image of it alone.
fn base_of(plan: &Plan) -> u32
    ensures base { result ≡ procedures_at (placed_in plan.now ∷ []) }
    ensures small { result ≤ 40 }
{
    if plan.frame.counted { 39 } else { 40 }
}

/// Places counted from a base.
fn from_base(alloc: Global, places: &[u32], base: u32) -> Result<Vec<u32>, AllocError>
    ensures { IfOk result (λ found. found.items ≡ map (λ x. x - base) places.now) }
{
    let mut found = Vec::with_capacity(alloc, places.len())?;
    for place in places {
        found.push(place.saturating_sub(base))?;
    }
    Ok(found)
}
