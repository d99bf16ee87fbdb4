//! Identifiers and reserved words.

ghost use Rattle.std.specs.Prelude.{◌≡◌, ◌<◌, ◌≤◌, length, drop, true, slice_index, IfOk, IfErr};
ghost use Rattle.ob_scan.specs.Words.{is_letter};
ghost use Rattle.ob_scan.specs.Steps.{Found, Refused};

use crate::classes::{Class, class_end};
use crate::fault::NoSymbol;
use crate::reserved::find_reserved;
use ob_symbol::Kind;

/// The most bytes that an identifier has.
const LONGEST_NAME: usize = 255;

/// The identifier or reserved word that begins with the letter here, and the place after it.
pub fn name(bytes: &[u8], at: usize) -> Result<(Kind, usize), NoSymbol>
    requires inside { at < length bytes.now }
    requires letter { is_letter (slice_index bytes.now at) ≡ true }
    ensures found { IfOk result (λ x. Found (drop at bytes.now) (drop x.1 bytes.now) x.0) }
    ensures range { IfOk result (λ x. (at < x.1) × (x.1 ≤ length bytes.now)) }
    ensures refused { IfErr result (λ e. Refused (drop at bytes.now) e) }
{
    let to = class_end(bytes, at + 1, Class::Name);
    match find_reserved(&bytes[at..to]) {
        Some(word) => Ok((Kind::Word(word), to)),
        None => {
            if to - at <= LONGEST_NAME {
                Ok((Kind::Ident, to))
            } else {
                Err(NoSymbol::NameTooLong)
            }
        }
    }
}
