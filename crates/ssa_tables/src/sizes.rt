//! The cells of types and record types, and what they take in memory.

ghost use Rattle.std.specs.Prelude.{◌≡◌, ◌<◌, ◌≤◌, ℕ, map, length, not, Some, IfOk, IfSome, IfNone};
ghost use Rattle.ob_types.specs.Layout.{kind_of, cells};
ghost use Rattle.ob_types.specs.Trees.{scalar_bytes, tree_extent, data_tree};
ghost use Rattle.ssa_tables.specs.Measured.{HasSizes};
ghost use Rattle.ssa_tables.specs.Places.{size_by, extent_by, type_cells_by};
ghost use Rattle.ssa_tables.specs.Sizes.{AreFirstCells, AreFirstExtents};

use crate::cells::cells_in;
use items::Items;
use ob_types::{Extent, TypeKind, Types};
use outside::Memory;
use ssa_exprs::takes_a_byte;
use std::alloc::Global;

/// The bytes of each record type.
pub fn record_sizes(alloc: Global, types: &Types) -> Result<Items<u32>, Memory>
    ensures { IfOk result (λ list. list ≡ map (λ r. r.extent.bytes) types.now.records) }
{
    let records = types.records();
    let mut list = Items::new(alloc);
    for r in records {
        list.push(r.extent.bytes)?;
    }
    Ok(list)
}

/// How many cells each record type has.
pub fn cells_of_records(alloc: Global, types: &Types) -> Result<Items<u32>, Memory>
    ensures { IfOk result (λ list. list ≡ map (λ r. r.cells) types.now.records) }
{
    let records = types.records();
    let mut list = Items::new(alloc);
    for r in records {
        list.push(r.cells)?;
    }
    Ok(list)
}

/// The level of each record type.
pub fn record_levels(alloc: Global, types: &Types) -> Result<Items<u32>, Memory>
    ensures { IfOk result (λ list. list ≡ map (λ r. r.level) types.now.records) }
{
    let records = types.records();
    let mut list = Items::new(alloc);
    for r in records {
        list.push(r.level)?;
    }
    Ok(list)
}

/// How many cells each type has.
pub fn type_cells(alloc: Global, types: &Types) -> Result<Items<u32>, Memory>
    requires { HasSizes types.now }
    ensures { IfOk result (λ list. (k : ℕ) → type_cells_by list k ≡ cells types.now k) }
{
    let count = types.kinds().len();
    let mut list = Items::new(alloc);
    for k in 0..count {
        let cells = cells_of(types, list.as_slice(), k);
        list.push(cells)?;
    }
    Ok(list)
}

/// The cells of a type, by those of the first ones that are known. An array's element stands before it in tables that the
/// checker makes, so that one step leads to it.
fn cells_of(types: &Types, known: &[u32], k: usize) -> u32
    requires sizes { HasSizes types.now }
    requires there { k < length types.now.kinds }
    requires known { AreFirstCells types.now known.now }
    ensures { result ≡ cells types.now k }
{
    let mut count: u64 = 1;
    let mut at = k;
    while let Some((length, element)) = array_behind(types, known.len(), at) {
        count = count.wrapping_mul(u64::from(length));
        at = element as usize;
    }
    count.wrapping_mul(u64::from(own_cells(types, known, at))) as u32
}

/// The cells of a type that is known, or that is no array of known length.
fn own_cells(types: &Types, known: &[u32], at: usize) -> u32
    requires sizes { HasSizes types.now }
    requires there { at < length types.now.kinds }
    requires known { AreFirstCells types.now known.now }
    requires single { length known.now ≤ at → (n e : ℕ) → kind_of types.now at ≡ TypeKind.Array (Some n) e → ⊥ }
    ensures { result ≡ cells types.now at }
{
    if at < known.len() {
        return known[at];
    }
    match types.kinds()[at] {
        TypeKind::Record(r) => record_cells(types, r),
        _ => 1,
    }
}

/// The cells of a record type.
fn record_cells(types: &Types, r: u32) -> u32
    requires sizes { HasSizes types.now }
    requires there { r < length types.now.records }
    ensures { result ≡ Rattle.ob_types.specs.Layout.record_cells types.now r }
{
    types.records()[r as usize].cells
}

/// The bytes of each type, by what all types take.
pub fn type_sizes(alloc: Global, extents: &[Extent]) -> Result<Items<u32>, Memory>
    ensures { IfOk result (λ list. (k : ℕ) → size_by list k ≡ (extent_by extents.now k).bytes) }
{
    let mut list = Items::new(alloc);
    for x in extents {
        list.push(x.bytes)?;
    }
    Ok(list)
}

/// What each type takes in memory.
pub fn type_extents(alloc: Global, types: &Types) -> Result<Items<Extent>, Memory>
    requires { HasSizes types.now }
    ensures { IfOk result (λ list. (k : ℕ) → extent_by list k ≡ tree_extent (data_tree types.now k)) }
{
    let count = types.kinds().len();
    let mut list = Items::new(alloc);
    for k in 0..count {
        let extent = extent_of(types, list.as_slice(), k);
        list.push(extent)?;
    }
    Ok(list)
}

/// What a type takes, by what the first ones take. An array's element stands before it in tables that the checker makes,
/// so that one step leads to it.
fn extent_of(types: &Types, known: &[Extent], k: usize) -> Extent
    requires sizes { HasSizes types.now }
    requires there { k < length types.now.kinds }
    requires known { AreFirstExtents types.now known.now }
    ensures { result ≡ tree_extent (data_tree types.now k) }
{
    let mut count: u64 = 1;
    let mut at = k;
    while let Some((length, element)) = array_behind(types, known.len(), at) {
        count = count.wrapping_mul(u64::from(length));
        at = element as usize;
    }
    let own = own_extent(types, known, at);
    Extent {
        bytes: count.wrapping_mul(u64::from(own.bytes)) as u32,
        wide: own.wide,
    }
}

/// What a type takes that is known, or that is no array of known length.
fn own_extent(types: &Types, known: &[Extent], at: usize) -> Extent
    requires sizes { HasSizes types.now }
    requires there { at < length types.now.kinds }
    requires known { AreFirstExtents types.now known.now }
    requires single { length known.now ≤ at → (n e : ℕ) → kind_of types.now at ≡ TypeKind.Array (Some n) e → ⊥ }
    ensures { result ≡ tree_extent (data_tree types.now at) }
{
    if at < known.len() {
        return extent_in(known, at);
    }
    match types.kinds()[at] {
        TypeKind::Record(r) => record_extent(types, r),
        kind => scalar_extent(takes_a_byte(kind)),
    }
}

/// What a type takes by a table of what all types take; a type that isn't in it takes eight bytes.
pub fn extent_in(extents: &[Extent], k: usize) -> Extent
    ensures { result ≡ extent_by extents.now k }
{
    if k < extents.len() {
        extents[k]
    } else {
        Extent {
            bytes: 8,
            wide: true,
        }
    }
}

/// What a scalar takes, by whether it takes one byte.
fn scalar_extent(small: bool) -> Extent
    ensures { result ≡ record { bytes = scalar_bytes small; wide = not small } }
{
    Extent {
        bytes: if small { 1 } else { 8 },
        wide: !small,
    }
}

/// What a record type takes.
fn record_extent(types: &Types, r: u32) -> Extent
    requires sizes { HasSizes types.now }
    requires there { r < length types.now.records }
    ensures { result ≡ Rattle.ob_types.specs.Trees.record_extent types.now r }
{
    types.records()[r as usize].extent
}

/// The length and the element type of an array of known length that isn't among the first types.
fn array_behind(types: &Types, known: usize, at: usize) -> Option<(u32, u32)>
    requires { at < length types.now.kinds }
    ensures array { IfSome result (λ a. kind_of types.now at ≡ TypeKind.Array (Some a.0) a.1) }
    ensures none { IfNone result (known ≤ at → (n e : ℕ) → kind_of types.now at ≡ TypeKind.Array (Some n) e → ⊥) }
{
    if at < known {
        return None;
    }
    match types.kinds()[at] {
        TypeKind::Array {
            length: Some(n),
            element,
        } => Some((n, element)),
        _ => None,
    }
}
