//! Strings by their numbers.

ghost use Rattle.std.specs.Prelude.{◌≡◌, ℕ, List, [], ◌∷◌, ◌++◌, map, IfOk, IfErr, Some, slice_get, slice_index_or};
ghost use Rattle.ob_judge.specs.Scopes.{characters};
ghost use Rattle.check_types.specs.names.Worlds.{strings_of};
ghost use Rattle.check_operands.specs.Operands.{texts_of};

use check_types::names::Scope;
use check_types::steps::CheckFault;
use ob_types::Characters;
use std::alloc::{AllocError, Global};

/// The number of a literal's characters.
pub fn literal_text<'a>(scope: &Scope<'a>, i: u32) -> u32
    ensures { slice_index_or (texts_of scope.now) result [] ≡ characters scope.now.source.now i }
{
    let count = scope.source.count();
    if (i as usize) < count {
        i
    } else {
        count as u32
    }
}

/// The number of a constant's characters. There is none for more strings than can be numbered, which no memory holds.
pub fn constant_text<'a>(scope: &Scope<'a>, k: u32) -> Result<u32, CheckFault>
    ensures ok { IfOk result (λ n. slice_index_or (texts_of scope.now) n [] ≡ slice_index_or (strings_of scope.now) k []) }
    ensures err { IfErr result (λ e. e ≡ CheckFault.Memory) }
{
    let before = scope.source.count();
    match before.checked_add(k as usize) {
        None => Err(CheckFault::Memory),
        Some(number) => {
            if number < 4294967295 {
                Ok((number + 1) as u32)
            } else {
                Err(CheckFault::Memory)
            }
        }
    }
}

/// The characters of a number.
pub fn text<'a>(scope: &Scope<'a>, n: u32) -> &'a [u8]
    ensures { result.now ≡ slice_index_or (texts_of scope.now) n [] }
{
    let before = scope.source.count();
    let number = n as usize;
    if number < before {
        scope.source.characters(n)
    } else if number == before {
        &[]
    } else {
        match scope.strings.get(number - before - 1) {
            Some(string) => string.as_slice(),
            None => &[],
        }
    }
}

// The characters of a string constant.
fn constant_characters(
    alloc: Global,
    strings: &[Characters],
    k: usize,
) -> Result<Characters, AllocError>
    ensures { IfOk result (λ s. s ≡ slice_index_or strings.now k []) }
{
    match strings.get(k) {
        Some(string) => string.again(),
        None => Characters::from_slice(alloc, &[]),
    }
}

/// The characters of a number, which all uses of a constant have in common.
pub fn characters_of<'a>(scope: &Scope<'a>, alloc: Global, n: u32) -> Result<Characters, AllocError>
    ensures { IfOk result (λ s. s ≡ slice_index_or (texts_of scope.now) n []) }
{
    let before = scope.source.count();
    let number = n as usize;
    if number > before {
        constant_characters(alloc, scope.strings, number - before - 1)
    } else {
        Characters::from_slice(alloc, text(scope, n))
    }
}

/// A number of the same characters that is there: where there is none of that number, that of no characters.
pub fn known_text<'a>(scope: &Scope<'a>, n: u32) -> u32
    ensures { slice_get (texts_of scope.now) result ≡ Some (slice_index_or (texts_of scope.now) n []) }
{
    let before = scope.source.count();
    if (n as usize).saturating_sub(before) <= scope.strings.len() {
        n
    } else {
        before as u32
    }
}
