//! Descriptors of record types.

ghost use Rattle.std.specs.Prelude.{◌≡◌, ◌+◌, ◌*◌, ◌<◌, ◌++◌, ◌^◌, OnOk};
ghost use Rattle.ob_types.specs.Layout.{record_of};
ghost use Rattle.ssa_lowered.specs.Constants.{ancestor as ancestor_there};
ghost use Rattle.ssa_tables.specs.constants.Described.{address_by, described};

use ob_types::Types;
use outside::Memory;

/// The level of a record type.
fn level_of(types: &Types, r: u32) -> u32
    ensures { result ≡ (record_of types.now r).level }
{
    match types.records().get(r as usize) {
        Some(found) => found.level,
        None => 0,
    }
}

/// The record type that a record type extends.
fn base_of(types: &Types, r: u32) -> Option<u32>
    ensures { result ≡ (record_of types.now r).base }
{
    match types.records().get(r as usize) {
        Some(found) => found.base,
        None => None,
    }
}

/// The type of a level among a record type and those that it extends.
fn ancestor(types: &Types, level: u32, r: u32) -> Option<u32>
    ensures { result ≡ ancestor_there types.now level r }
{
    let mut at = r;
    let mut left = types.records().len();
    while level_of(types, at) != level {
        if left == 0 {
            return None;
        }
        left -= 1;
        match base_of(types, at) {
            Some(base) => at = base,
            None => return None,
        }
    }
    Some(at)
}

/// A cell of a descriptor: the address of an ancestor's descriptor, where the first one stands at an address; 0 where there is
/// no such ancestor.
fn cell(types: &Types, first: u64, level: u32, r: u32) -> u64
    requires { first < 2 ^ 62 }
    ensures { result ≡ address_by first (ancestor_there types.now level r) }
{
    match ancestor(types, level, r) {
        Some(a) => first + 128 * u64::from(a),
        None => 0,
    }
}

/// Adds the bytes of a record type's descriptor.
pub fn push_descriptor(bytes: &mut Vec<u8>, types: &Types, first: u64, r: u32) -> Result<(), Memory>
    requires { first < 2 ^ 62 }
    ensures { OnOk result (bytes.new.items ≡ bytes.old.items ++ described types.now first r) }
{
    for level in 0..16 {
        let address = cell(types, first, level, r);
        bytes.extend_from_slice(&address.to_le_bytes())?;
    }
    Ok(())
}
