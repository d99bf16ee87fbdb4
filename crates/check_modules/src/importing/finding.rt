//! Modules found by their names.

ghost use Rattle.std.specs.Prelude.{◌≡◌, List, ℕ, map, option_map, IfOk, IfErr};
ghost use Rattle.std.specs.Str.{bytes_eq};
ghost use Rattle.ob_types.specs.Table.{Table};
ghost use Rattle.ob_judge.specs.Modules.{module_from, imported as judged_import, is_new as judged_new};
ghost use Rattle.check_types.specs.names.Meaning.{module_of, imported_of};
ghost use Rattle.check_modules.specs.importing.Finding.{earlier};

use check_types::names::{Imported, KnownModule};
use check_types::steps::CheckFault;

// Whether two names are the same.
fn is_name(spelling: &[u8], name: &[u8]) -> bool
    ensures { result ≡ bytes_eq spelling.now name.now }
{
    spelling == name
}

// A place among modules as a module's number; without one there is no memory for it.
fn as_number(i: usize) -> Result<u32, CheckFault>
    ensures number { IfOk result (λ n. n ≡ i) }
    ensures memory { IfErr result (λ e. e ≡ CheckFault.Memory) }
{
    match u32::try_from(i) {
        Ok(n) => Ok(n),
        Err(_) => Err(CheckFault::Memory),
    }
}

// The number of the first module of this name.
fn found(modules: &[KnownModule], name: &[u8]) -> Result<Option<u32>, CheckFault>
    ensures found { IfOk result (λ o. (t : Table) (strings : List (List ℕ)) → module_from 0 (map (module_of t strings) modules.now) name.now ≡ option_map earlier o) }
    ensures memory { IfErr result (λ e. e ≡ CheckFault.Memory) }
{
    for i in 0..modules.len() {
        if is_name(modules[i].name.as_slice(), name) {
            return Ok(Some(as_number(i)?));
        }
    }
    Ok(None)
}

/// What is imported under this name, if there is such a module before.
pub fn imported(modules: &[KnownModule], name: &[u8]) -> Result<Option<Imported>, CheckFault>
    ensures imported { IfOk result (λ o. (t : Table) (strings : List (List ℕ)) → judged_import (map (module_of t strings) modules.now) name.now ≡ option_map imported_of o) }
    ensures memory { IfErr result (λ e. e ≡ CheckFault.Memory) }
{
    if is_name(b"Out", name) {
        return Ok(Some(Imported::Out));
    }
    if is_name(b"In", name) {
        return Ok(Some(Imported::In));
    }
    match found(modules, name)? {
        Some(n) => Ok(Some(Imported::Earlier(n))),
        None => Ok(None),
    }
}

/// Whether a module before has this name.
pub fn is_new(modules: &[KnownModule], name: &[u8]) -> Result<bool, CheckFault>
    ensures new { IfOk result (λ b. (t : Table) (strings : List (List ℕ)) → judged_new (judged_import (map (module_of t strings) modules.now) name.now) ≡ b) }
    ensures memory { IfErr result (λ e. e ≡ CheckFault.Memory) }
{
    Ok(imported(modules, name)?.is_none())
}
