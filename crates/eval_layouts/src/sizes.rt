//! The cells of types.

ghost use Rattle.std.specs.Prelude.{◌≡◌, ◌*◌, IfOk, IfSome};
ghost use Rattle.ob_types.specs.Layout.{cells as cells_of, record_cells as cells_of_record};
ghost use Rattle.eval_layouts.specs.Tables.{TableOf};
ghost use Rattle.eval_layouts.specs.Lays.{IsMeasured};

use ob_types::{TypeKind, Types};
use outside::Memory;
use std::alloc::Global;

/// The cells of a record type, where it is there.
#[inline]
pub fn record_cells(types: &Types, r: u32) -> Option<u64>
    requires { IsMeasured types.now }
    ensures { IfSome result (λ n. n ≡ cells_of_record types.now r) }
{
    match types.records().get(r as usize) {
        Some(found) => Some(u64::from(found.cells)),
        None => None,
    }
}

/// The cells of a type by those of the first ones, where it is among these, or is no array of known length.
fn own_cells(types: &Types, known: &[u64], at: u32) -> Option<u64>
    requires measured { IsMeasured types.now }
    requires known { TableOf (cells_of types.now) known.now }
    ensures { IfSome result (λ n. n ≡ cells_of types.now at) }
{
    match known.get(at as usize) {
        Some(n) => Some(*n),
        None => match types.kind(at) {
            TypeKind::Array {
                length: Some(_),
                ..
            } => None,
            TypeKind::Record(r) => match record_cells(types, r) {
                Some(n) => Some(n),
                None => None,
            },
            _ => Some(1),
        },
    }
}

/// A product, where it has 64 bits.
fn product(a: u64, b: u64) -> Option<u64>
    ensures { IfSome result (λ n. n ≡ a * b) }
{
    match a.checked_mul(b) {
        Some(n) => Some(n),
        None => None,
    }
}

/// The cells of a type by those of the first ones. An array's element stands before it in tables that the checker makes,
/// so that one step leads to it.
fn cells_by(types: &Types, known: &[u64], kind: u32) -> Option<u64>
    requires measured { IsMeasured types.now }
    requires known { TableOf (cells_of types.now) known.now }
    ensures { IfSome result (λ n. n ≡ cells_of types.now kind) }
{
    let mut count: u64 = 1;
    let mut at = kind;
    for _step in 0..=types.kinds().len() {
        if let Some(n) = own_cells(types, known, at) {
            return product(count, n);
        }
        match types.kind(at) {
            TypeKind::Array {
                length: Some(n),
                element,
            } => match product(count, u64::from(n)) {
                Some(more) => {
                    count = more;
                    at = element;
                }
                None => return None,
            },
            _ => return None,
        }
    }
    None
}

/// The cells of each type.
pub fn sizes(alloc: Global, types: &Types) -> Result<Vec<u64>, Memory>
    requires { IsMeasured types.now }
    ensures { IfOk result (λ list. TableOf (cells_of types.now) list.items) }
{
    let mut list: Vec<u64> = Vec::new(alloc);
    for k in 0..types.kinds().len() {
        if k > 0xffff_ffff {
            return Err(Memory);
        }
        match cells_by(types, list.as_slice(), k as u32) {
            None => return Err(Memory),
            Some(n) => list.push(n)?,
        }
    }
    Ok(list)
}
