//! Of each type, how many elements it has that are no arrays, as far as cells are counted.

ghost use Rattle.std.specs.Prelude.{◌≡◌, ◌<◌, ◌≤◌, ℕ, Some, slice_get, length, IfOk, OnOk};
ghost use Rattle.table_builder.specs.Elements.{itself, known_elements, elements_of as elements_of_type, elements_of_basics};

use crate::cells::capped;
use check_types::TypeRef;
use outside::Memory;
use std::alloc::Global;

/// So many elements that are no arrays of known length, by the number of their type.
#[derive(Clone, Copy)]
pub struct Elements {
    pub count: u32,
    pub of: u32,
}

// A type that is no array is its one element.
fn single(n: u32) -> Elements
    ensures { result ≡ itself n }
{
    Elements { count: 1, of: n }
}

// The elements of the type with the number n.
fn known(elements: &[Elements], n: u32) -> Elements
    ensures { result ≡ known_elements elements.now n }
{
    match elements.get(n as usize) {
        Some(known) => *known,
        None => single(n),
    }
}

// The elements of a type with the number n, by those of the types before it.
fn elements_of(elements: &[Elements], of: TypeRef, n: u32) -> Elements
    ensures { result ≡ elements_of_type elements.now n of }
{
    match of {
        TypeRef::Array { length, element } => {
            let inner = known(elements, element);
            Elements {
                count: capped(u64::from(length) * u64::from(inner.count)) as u32,
                of: inner.of,
            }
        }
        _ => single(n),
    }
}

/// The elements of the basic types, which have the first numbers.
pub fn basic_elements(alloc: Global) -> Result<Vec<Elements>, Memory>
    ensures { IfOk result (λ v. v.items ≡ elements_of_basics) }
{
    Ok(Vec::from_slice(
        alloc,
        &[
            single(0),
            single(1),
            single(2),
            single(3),
            single(4),
            single(5),
        ],
    )?)
}

/// Notes the elements of the type that is to have the number n, behind those of the n types before it.
pub fn note_elements(elements: &mut Vec<Elements>, of: TypeRef, n: u32) -> Result<(), Memory>
    requires { n ≤ length elements.old.items }
    ensures kept { (k : ℕ) → k < n → slice_get elements.new.items k ≡ slice_get elements.old.items k }
    ensures as_many { n ≤ length elements.new.items }
    ensures noted { OnOk result (slice_get elements.new.items n ≡ Some (elements_of_type elements.old.items n of)) }
{
    let one = elements_of(elements.as_slice(), of, n);
    elements.truncate(n as usize);
    elements.push(one)?;
    Ok(())
}
