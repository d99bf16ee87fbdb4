//! Where the blocks of a procedure begin.

ghost use Rattle.std.specs.Prelude.{◌≡◌, ℕ, ◌+◌, ◌<◌, ◌≤◌, ◌^◌, List, false, ◌==◌, length, IfOk, IfErr};
ghost use Rattle.placed_code.specs.Placed.{Placed, proc_of};
ghost use Rattle.placed_code.specs.Layout.{entry, proc_width};
ghost use Rattle.link_words.specs.Fields.{InReach, entry_in};
ghost use Rattle.link_layout.specs.Widths.{AreBlocks, ArePlaces, IsWide};
ghost use Rattle.link_layout.specs.Starts.{IsByNumber, end_from};
ghost use Rattle.link_layout.specs.declared.fault.LayoutFault.TheVariants.{Limit};

use crate::fault::LayoutFault;
use crate::starting::{behind, starts};
use std::alloc::{AllocError, Global};

/// The first words of a procedure's blocks, by number, where the first one in its order begins at a word: from the order, and
/// how many words each block has, in that order.
pub fn block_places(
    alloc: Global,
    first: u32,
    order: &[u32],
    widths: &[u32],
    count: u32,
) -> Result<Vec<u32>, LayoutFault>
    ensures places { IfOk result (λ places. (ps : List Placed) (p : ℕ) → AreBlocks ps p first order.now widths.now count → ArePlaces ps p places.items) }
    ensures fits { IfOk result (λ places. (ps : List Placed) (p : ℕ) → AreBlocks ps p first order.now widths.now count → entry ps p + proc_width p (proc_of ps p) ≤ 2 ^ 18) }
    ensures reach { IfOk result (λ places. InReach places.items) }
    ensures limit { IfErr result (λ fault. fault ≡ Limit → (ps : List Placed) (p : ℕ)
        → AreBlocks ps p first order.now widths.now count → 2 ^ 18 < entry ps p + proc_width p (proc_of ps p)) }
{
    let first = behind(first, 0)?;
    let starts = starts(alloc, first, widths)?;
    let places = by_number(alloc, order, starts.as_slice(), count)?;
    Ok(places)
}

/// How many words a procedure has: from how many stand before its blocks, and how many words each block has, in their order.
pub fn procedure_width(front: u32, widths: &[u32]) -> Result<u32, LayoutFault>
    ensures width { IfOk result (λ width. (pr : Placed) (p : ℕ) → IsWide pr front widths.now → width ≡ proc_width p pr) }
    ensures fits { IfOk result (λ width. width ≤ 2 ^ 18) }
    ensures limit { IfErr result (λ fault. (pr : Placed) (p : ℕ) → IsWide pr front widths.now → 2 ^ 18 < proc_width p pr) }
{
    end_of(front, widths)
}

/// Where parts of given widths end, one behind the other.
pub fn end_of(first: u32, widths: &[u32]) -> Result<u32, LayoutFault>
    ensures end { IfOk result (λ end. end ≡ end_from first widths.now) }
    ensures fits { IfOk result (λ end. end ≤ 2 ^ 18) }
    ensures limit { IfErr result (λ fault. 2 ^ 18 < end_from first widths.now) }
{
    let mut at = behind(0, first)?;
    for width in widths {
        at = behind(at, *width)?;
    }
    Ok(at)
}

/// What stands in a list at a number's first place in the order, by that number.
fn by_number(
    alloc: Global,
    order: &[u32],
    starts: &[u32],
    count: u32,
) -> Result<Vec<u32>, AllocError>
    ensures numbers { IfOk result (λ places. length starts.now ≡ length order.now → IsByNumber order.now starts.now count places.items) }
    ensures reach { InReach starts.now → IfOk result (λ places. InReach places.items) }
{
    let mut places = vec![in alloc; 0u32; count as usize]?;
    let mut i = order.len().min(starts.len());
    while i > 0 {
        i -= 1;
        put(&mut places, order[i], starts[i]);
    }
    Ok(places)
}

/// A block begins at a word, where there is one of that number.
fn put(places: &mut Vec<u32>, number: u32, at: u32)
    ensures size { length places.new.items ≡ length places.old.items }
    ensures one { number < length places.old.items → entry_in places.new.items number ≡ at }
    ensures others { (b : ℕ) → (number == b) ≡ false → entry_in places.new.items b ≡ entry_in places.old.items b }
    ensures reach { at ≤ 2 ^ 18 → InReach places.old.items → InReach places.new.items }
{
    let number = number as usize;
    if number < places.len() {
        places[number] = at;
    }
}
