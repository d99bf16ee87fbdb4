//! How parameters are handed over and used (Oberon-07 report, section 10.1).

ghost use Rattle.std.specs.Prelude.{◌≡◌, ◌+◌, Some, None, if◌then◌else◌, nat_le};
ghost use Rattle.ob_types.specs.Table.{Table};
ghost use Rattle.ob_judge.specs.Parameters.{mode_of as judged_mode, words_of as judged_words, parameter_home, is_value as value_mode};
ghost use Rattle.check_types.specs.TypeMeaning.{type_shape};
ghost use Rattle.check_types.specs.names.Meaning.{home_of as home_meant};

use check_types::TypeRef;
use check_types::names::Home;
use ob_types::Mode;

/// How a parameter is handed over.
pub fn mode_of(variable: bool, of: TypeRef) -> Mode
    ensures { (t : Table) → result ≡ judged_mode variable (type_shape t of) }
{
    match of {
        TypeRef::Open(_) => Mode::Open,
        TypeRef::Record(_) => { if variable { Mode::Record } else { Mode::Place } }
        TypeRef::Array { .. } => Mode::Place,
        _ => { if variable { Mode::Place } else { Mode::Value } }
    }
}

/// Whether a parameter is handed over by its value, and so is a local variable.
pub fn is_value(mode: Mode) -> bool
    ensures { result ≡ value_mode mode }
{
    match mode {
        Mode::Value => true,
        _ => false,
    }
}

/// How a parameter may be used.
pub fn home_of(variable: bool, of: TypeRef) -> Home
    ensures { (t : Table) → home_meant result ≡ parameter_home variable (type_shape t of) }
{
    match of {
        TypeRef::Record(_) => {
            if variable {
                Home::Tagged
            } else {
                Home::ReadOnly
            }
        }
        TypeRef::Open(_) | TypeRef::Array { .. } => {
            if variable { Home::Free } else { Home::ReadOnly }
        }
        _ => Home::Free,
    }
}

// How many words a parameter takes.
fn words_of(variable: bool, of: TypeRef) -> u32
    ensures { (t : Table) → result ≡ judged_words variable (type_shape t of) }
{
    match of {
        TypeRef::Open(_) => 2,
        TypeRef::Record(_) => { if variable { 2 } else { 1 } }
        _ => 1,
    }
}

// So many words more, if there are 24 at most.
fn within_24(so_far: u32, words: u32) -> Option<u32>
    ensures { result ≡ (if nat_le (so_far + words) 24 then Some (so_far + words) else None) }
{
    match so_far.checked_add(words) {
        None => None,
        Some(all) => { if all <= 24 { Some(all) } else { None } }
    }
}

/// The words with one more parameter, if there are 24 at most.
pub fn with_words(so_far: u32, variable: bool, of: TypeRef) -> Option<u32>
    ensures { (t : Table) → let words = so_far + judged_words variable (type_shape t of) in result ≡ (if nat_le words 24 then Some words else None) }
{
    within_24(so_far, words_of(variable, of))
}
