//! Elements of sets, and bytes, that must be within their bounds.

ghost use Rattle.std.specs.Prelude.{◌≡◌, bit_or, Some, None, if◌then◌else◌};
ghost use Rattle.wrapping_numbers.specs.Sets.{has as has_element};
ghost use Rattle.ob_types.specs.Operators.{truth as truth_of, inside, elements as elements_of};

use crate::operators::{elements, has, is_byte, is_element, truth};

/// Whether a number is an element of a set: none where it can't be one.
pub fn is_in(x: u64, set: u64) -> Option<u64>
    ensures { result ≡ (if inside x 64 then Some (truth_of (has_element set x)) else None) }
{
    if is_element(x) {
        Some(truth(has(set, x)))
    } else {
        None
    }
}

/// A number as a BYTE: none where it can't be one.
pub fn as_byte(x: u64) -> Option<u64>
    ensures { result ≡ (if inside x 256 then Some x else None) }
{
    if is_byte(x) { Some(x) } else { None }
}

/// A set and one more element.
pub fn with_element(set: u64, x: u64) -> Option<u64>
    ensures { result ≡ (if inside x 64 then Some (bit_or set (elements_of x x)) else None) }
{
    if is_element(x) {
        Some(set | elements(x, x))
    } else {
        None
    }
}

/// A set and the elements from one to another.
pub fn with_elements(set: u64, low: u64, high: u64) -> Option<u64>
    ensures { result ≡ (if inside low 64 then (if inside high 64 then Some (bit_or set (elements_of low high)) else None) else None) }
{
    if is_element(low) && is_element(high) {
        Some(set | elements(low, high))
    } else {
        None
    }
}
