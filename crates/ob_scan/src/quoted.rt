//! Strings between quotes.

ghost use Rattle.std.specs.Prelude.{◌≡◌, ◌<◌, ◌≤◌, length, drop, slice_index, IfOk, IfErr};
ghost use Rattle.ob_scan.specs.Steps.{Found, Refused};

use crate::classes::{Class, class_end, has_byte};
use crate::fault::NoSymbol;
use ob_symbol::Kind;

/// The string that begins with the quote here, and the place after it.
pub fn quoted(bytes: &[u8], at: usize) -> Result<(Kind, usize), NoSymbol>
    requires inside { at < length bytes.now }
    requires quote { slice_index bytes.now at ≡ 34 }
    ensures found { IfOk result (λ x. Found (drop at bytes.now) (drop x.1 bytes.now) x.0) }
    ensures range { IfOk result (λ x. (at < x.1) × (x.1 ≤ length bytes.now)) }
    ensures refused { IfErr result (λ e. Refused (drop at bytes.now) e) }
{
    let end = class_end(bytes, at + 1, Class::Quotable);
    if has_byte(bytes, end, b'"') {
        Ok((Kind::Text, end + 1))
    } else {
        Err(NoSymbol::OpenString)
    }
}
