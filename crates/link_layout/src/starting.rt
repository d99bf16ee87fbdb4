//! Where procedures begin.

ghost use Rattle.std.specs.Prelude.{◌≡◌, ◌+◌, ◌<◌, ◌≤◌, ◌^◌, List, length, IfOk, IfErr, OnOk};
ghost use Rattle.placed_code.specs.Placed.{Placed};
ghost use Rattle.placed_code.specs.Layout.{all_words};
ghost use Rattle.link_words.specs.Fields.{InReach};
ghost use Rattle.link_layout.specs.Starts.{starts_from, end_from};
ghost use Rattle.link_layout.specs.Widths.{AreWidths, AreEntries};
ghost use Rattle.link_layout.specs.declared.fault.LayoutFault.TheVariants.{Limit, Memory};

use crate::fault::LayoutFault;
use std::alloc::Global;

/// The most words that an image has.
const MOST: u32 = 262_144;

/// How many words the routines have, which each image has once.
const ROUTINES: u32 = 38;

/// The first words of procedures, by number, from how many words each has and how many of them are bodies of modules.
pub fn entries(alloc: Global, bodies: u32, widths: &[u32]) -> Result<Vec<u32>, LayoutFault>
    ensures entries { IfOk result (λ entries. (ps : List Placed) → AreWidths ps bodies widths.now → AreEntries ps entries.items) }
    ensures fits { IfOk result (λ entries. (ps : List Placed) → AreWidths ps bodies widths.now → length (all_words ps) ≤ 2 ^ 18) }
    ensures reach { IfOk result (λ entries. InReach entries.items) }
    ensures limit { IfErr result (λ fault. fault ≡ Limit → (ps : List Placed) → AreWidths ps bodies widths.now → 2 ^ 18 < length (all_words ps)) }
{
    let start = behind(bodies, 1)?;
    let first = behind(start, ROUTINES)?;
    starts(alloc, first, widths)
}

/// Where parts of given widths begin, one behind the other.
pub(crate) fn starts(alloc: Global, first: u32, widths: &[u32]) -> Result<Vec<u32>, LayoutFault>
    requires { first ≤ 2 ^ 18 }
    ensures starts { IfOk result (λ starts. starts.items ≡ starts_from first widths.now) }
    ensures fits { IfOk result (λ starts. end_from first widths.now ≤ 2 ^ 18) }
    ensures reach { IfOk result (λ starts. InReach starts.items) }
    ensures limit { IfErr result (λ fault. fault ≡ Limit → 2 ^ 18 < end_from first widths.now) }
{
    let mut starts = Vec::with_capacity(alloc, widths.len())?;
    let mut at = first;
    for width in widths {
        starts.push(at)?;
        at = behind(at, *width)?;
    }
    Ok(starts)
}

/// The word behind a part, where an image has room for it.
pub(crate) fn behind(at: u32, width: u32) -> Result<u32, LayoutFault>
    ensures sum { IfOk result (λ next. next ≡ at + width) }
    ensures fits { IfOk result (λ next. next ≤ 2 ^ 18) }
    ensures limit { IfErr result (λ fault. 2 ^ 18 < at + width) }
{
    match at.checked_add(width) {
        Some(next) if next <= MOST => Ok(next),
        _ => Err(LayoutFault::Limit),
    }
}
