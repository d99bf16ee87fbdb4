//! Where fields stand in their records.

ghost use Rattle.std.specs.Prelude.{◌≡◌, map, IfOk};
ghost use Rattle.ob_types.specs.Layout.{types_of};
ghost use Rattle.ssa_tables.specs.Places.{begins, field_starts, extent_by, base_by};

use crate::places::beyond;
use crate::sizes::extent_in;
use items::Items;
use ob_types::{Extent, Field, Types};
use outside::Memory;
use std::alloc::Global;

/// The offsets of the fields that each record type adds, and that of one more of the first type, by what all types take
/// and by the bytes of all record types.
pub fn field_offsets(
    alloc: Global,
    types: &Types,
    extents: &[Extent],
    records: &[u32],
) -> Result<Items<Items<u32>>, Memory>
    ensures { IfOk result (λ list. list ≡ map (λ r. field_starts (extent_by extents.now) (base_by records.now r.base) (types_of r.fields)) types.now.records) }
{
    let declared = types.records();
    let mut list = Items::new(alloc);
    for r in declared {
        let first = base_size(records, r.base);
        list.push(field_places(alloc, extents, first, r.fields.as_slice())?)?;
    }
    Ok(list)
}

/// The bytes of a record type's base; 0 where it has none.
fn base_size(records: &[u32], base: Option<u32>) -> u32
    ensures { result ≡ base_by records.now base }
{
    match base {
        None => 0,
        Some(b) => {
            if (b as usize) < records.len() {
                records[b as usize]
            } else {
                0
            }
        }
    }
}

/// Where each field begins, behind the base's bytes and the fields before it, and where one more of the first type would.
fn field_places(
    alloc: Global,
    extents: &[Extent],
    first: u32,
    fields: &[Field],
) -> Result<Items<u32>, Memory>
    ensures { IfOk result (λ list. list ≡ field_starts (extent_by extents.now) first (types_of fields.now)) }
{
    let mut list = Items::new(alloc);
    let mut at = first;
    for f in fields {
        let extent = extent_in(extents, f.type_number as usize);
        let place = beginning(extent, at);
        list.push(place)?;
        at = beyond(place, extent.bytes);
    }
    list.push(beginning(extent_in(extents, 0), at))?;
    Ok(list)
}

/// Where a part begins behind what ends at a place: at a multiple of 8 where it has a part of eight bytes.
fn beginning(extent: Extent, at: u32) -> u32
    ensures { result ≡ begins extent at }
{
    if extent.wide {
        ((u64::from(at) + 7) / 8 * 8).min(16777215) as u32
    } else {
        at.min(16777215)
    }
}
