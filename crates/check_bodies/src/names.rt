//! Names that mean the same beside other strings.

ghost use Rattle.std.specs.Prelude.{◌≡◌, true};
ghost use Rattle.check_bodies.specs.Strings.{IsAlike, AreAlike};

use check_types::names::{Constant, Declared, Level, Named};

// Whether a declaration isn't that of a constant that is a string.
fn is_alike(declared: &Declared) -> bool
    ensures { result ≡ true → IsAlike declared.now }
{
    match declared.named {
        Named::Constant(Constant::Chars(_)) => false,
        _ => true,
    }
}

/// Whether no name of a scope is a constant that is a string.
pub(crate) fn are_alike(names: &Level) -> bool
    ensures { result ≡ true → AreAlike names.now }
{
    for declared in names.names.values() {
        if !is_alike(declared) {
            return false;
        }
    }
    true
}
