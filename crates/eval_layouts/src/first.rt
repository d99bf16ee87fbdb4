//! The objects that are there before the first module's body.

ghost use Rattle.std.specs.Prelude.{◌≡◌, List, ℕ, [], ◌∷◌, ◌++◌, map, IfOk, OnOk};
ghost use Rattle.ob_types.specs.Layout.{cells as cells_of};
ghost use Rattle.ob_types.specs.Store.{Bits};
ghost use Rattle.ob_types.specs.Meaning.{zeros, texts_of};
ghost use Rattle.ob_types.specs.declared.program.Program.{Program as TheProgram};
ghost use Rattle.eval_layouts.specs.Tables.{TableOf};
ghost use Rattle.eval_layouts.specs.First.{string_of};

use crate::rows::added_cells;
use eval_store::{Cell, Object, Objects};
use ob_types::{Characters, Program};
use outside::Memory;
use std::alloc::Global;

/// Variables of these types, all of them 0.
fn zero_variables(alloc: Global, sizes: &[u64], kinds: &[u32]) -> Result<Object, Memory>
    ensures { IfOk result (λ o. (p : TheProgram) → TableOf (cells_of p.types) sizes.now → o ≡ zeros p kinds.now) }
{
    match added_cells(sizes, kinds) {
        None => Err(Memory),
        Some(count) => Object::zeros(alloc, count as usize),
    }
}

/// In.Done, and the variables of all modules.
pub fn first_globals(alloc: Global, program: &Program, sizes: &[u64]) -> Result<Objects, Memory>
    requires { TableOf (cells_of program.now.types) sizes.now }
    ensures { IfOk result (λ all. all ≡ (Bits 0 ∷ []) ∷ map (λ m. zeros program.now m.variables) program.now.modules) }
{
    let mut all = Objects::new(alloc);
    all.push(Object::zeros(alloc, 1)?)?;
    for module in program.modules.as_slice() {
        all.push(zero_variables(alloc, sizes, module.variables.as_slice())?)?;
    }
    Ok(all)
}

/// A string: its characters, and 0X.
fn string(alloc: Global, text: &[u8]) -> Result<Object, Memory>
    ensures { IfOk result (λ o. o ≡ string_of text.now) }
{
    let mut cells = Vec::with_capacity(alloc, text.len())?;
    for character in text {
        cells.push(Cell::bits(u64::from(*character)))?;
    }
    cells.push(Cell::bits(0))?;
    Ok(Object::from_vec(cells))
}

/// Strings behind those that are there.
fn push_strings(alloc: Global, all: &mut Objects, texts: &[Characters]) -> Result<(), Memory>
    ensures { OnOk result (all.new ≡ all.old ++ map string_of texts.now) }
{
    for text in texts {
        all.push(string(alloc, text.as_slice())?)?;
    }
    Ok(())
}

/// The strings of all procedures.
pub fn first_strings(alloc: Global, program: &Program) -> Result<Objects, Memory>
    ensures { IfOk result (λ all. all ≡ map string_of (texts_of program.now.procedures)) }
{
    let mut all = Objects::new(alloc);
    for procedure in program.procedures.as_slice() {
        push_strings(alloc, &mut all, procedure.texts.as_slice())?;
    }
    Ok(all)
}
