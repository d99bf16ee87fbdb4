//! Things that stand one behind the other, in bytes. What passes 24 bits is clamped, as addresses are.

ghost use Rattle.std.specs.Prelude.{◌≡◌, ◌+◌, min, IfOk};
ghost use Rattle.ssa_lowered.specs.Data.{rounded};
ghost use Rattle.ssa_tables.specs.Places.{starts, finish, size_by, room_by};

use items::Items;
use outside::Memory;
use std::alloc::Global;

/// Where what has some bytes ends.
pub fn beyond(at: u32, bytes: u32) -> u32
    ensures { result ≡ min (at + bytes) 16777215 }
{
    (u64::from(at) + u64::from(bytes)).min(16777215) as u32
}

/// Where the next variable begins, behind one that has some bytes: these are rounded up to a multiple of 8.
pub fn behind(at: u32, bytes: u32) -> u32
    ensures { result ≡ min (at + rounded bytes) 16777215 }
{
    (u64::from(at) + (u64::from(bytes) + 7) / 8 * 8).min(16777215) as u32
}

/// The bytes of a type in a table; a type that isn't in it has one cell, of eight bytes.
pub fn size_in(sizes: &[u32], k: u32) -> u32
    ensures { result ≡ size_by sizes.now k }
{
    let at = k as usize;
    if at < sizes.len() { sizes[at] } else { 8 }
}

/// Where each of some variables begins, and where the last one ends.
pub fn variable_places(
    alloc: Global,
    sizes: &[u32],
    first: u32,
    types: &[u32],
) -> Result<Items<u32>, Memory>
    ensures { IfOk result (λ list. list ≡ starts (room_by sizes.now) first types.now) }
{
    let mut list = Items::new(alloc);
    let mut at = first;
    for k in types {
        list.push(at)?;
        at = behind(at, size_in(sizes, *k));
    }
    list.push(at)?;
    Ok(list)
}

/// Where the last of some variables ends.
pub fn variables_end(sizes: &[u32], first: u32, types: &[u32]) -> u32
    ensures { result ≡ finish (room_by sizes.now) first types.now }
{
    let mut at = first;
    for k in types {
        at = behind(at, size_in(sizes, *k));
    }
    at
}
