//! What the types of designators say.

ghost use Rattle.std.specs.Prelude.{◌≡◌};
ghost use Rattle.ob_types.specs.Meaning.{kind_in as kind_of, length_of_kind as length_of, element_kind as element_of, record_of_kind as record_of, is_byte as is_of_bytes};

use ob_types::{Designator, TypeKind};

/// The type that a designator has.
#[inline]
pub fn kind_in(d: &Designator) -> TypeKind
    ensures { result ≡ kind_of d.now }
{
    match d {
        Designator::Whole(_, kind) => *kind,
        Designator::Part(access) => access.kind,
    }
}

/// The length of an array or a string, where the type has one.
#[inline]
pub fn length_of_kind(kind: TypeKind) -> Option<u64>
    ensures { result ≡ length_of kind }
{
    match kind {
        TypeKind::Array {
            length: Some(n),
            ..
        } => Some(u64::from(n)),
        TypeKind::Text(n) => Some(u64::from(n) + 1),
        _ => None,
    }
}

/// The type of an array's elements.
pub fn element_kind(kind: TypeKind) -> u32
    ensures { result ≡ element_of kind }
{
    match kind {
        TypeKind::Array { element, .. } => element,
        _ => 0,
    }
}

/// The record type of a record, or of a pointer's objects.
pub fn record_of_kind(kind: TypeKind) -> u32
    ensures { result ≡ record_of kind }
{
    match kind {
        TypeKind::Record(r) => r,
        TypeKind::Pointer(r) => r,
        _ => 0,
    }
}

/// A BYTE.
#[inline]
pub fn is_byte(kind: TypeKind) -> bool
    ensures { result ≡ is_of_bytes kind }
{
    matches!(kind, TypeKind::Byte)
}

/// A length of 32 bits.
#[inline]
pub fn known(length: Option<u32>) -> Option<u64>
    ensures { result ≡ length }
{
    match length {
        Some(n) => Some(u64::from(n)),
        None => None,
    }
}
