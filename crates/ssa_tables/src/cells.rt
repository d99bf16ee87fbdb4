//! How many cells variables, descriptors and strings have, which limits count. What passes 24 bits is clamped, as addresses are.

ghost use Rattle.std.specs.Prelude.{◌≡◌, suc, ◌+◌, ◌*◌, min};
ghost use Rattle.ob_types.specs.Meaning.{texts_of};
ghost use Rattle.ssa_lowered.specs.Limits.{constant_cells as constant_cells_there};
ghost use Rattle.ssa_tables.specs.Places.{finish, module_finish, string_cells, type_cells_by};
ghost use Rattle.ssa_tables.specs.Strings.{Counts};

use crate::locals::Variable;
use crate::places::beyond;
use ob_types::{Characters, Module, Procedure, Program};

/// How many cells a type has in a table; a type that isn't in it has one.
pub fn cells_in(counts: &[u32], k: usize) -> u32
    ensures { result ≡ type_cells_by counts.now k }
{
    if k < counts.len() { counts[k] } else { 1 }
}

/// The cells of the variables of all modules, and of In.Done.
pub fn module_cells(counts: &[u32], modules: &[Module]) -> u32
    ensures { result ≡ module_finish (type_cells_by counts.now) 1 modules.now }
{
    let mut at = 1;
    for m in modules {
        at = cells_behind(counts, at, m.variables.as_slice());
    }
    at
}

/// Some cells, and those of the variables of one module.
fn cells_behind(counts: &[u32], first: u32, types: &[u32]) -> u32
    ensures { result ≡ finish (type_cells_by counts.now) first types.now }
{
    let mut at = first;
    for k in types {
        at = beyond(at, cells_in(counts, *k as usize));
    }
    at
}

/// The cells of a procedure's variables.
pub fn declared_cells(counts: &[u32], list: &[Variable]) -> u32
    ensures { result ≡ finish (λ v. type_cells_by counts.now v.type_number) 0 list.now }
{
    let mut at = 0;
    for v in list {
        at = beyond(at, cells_in(counts, v.type_number as usize));
    }
    at
}

/// The cells of a program's descriptors and strings.
pub fn constant_cells(program: &Program) -> u32
    ensures { result ≡ min (constant_cells_there program.now) 16777215 }
{
    let first = descriptor_cells(program.types.records().len());
    behind_procedures(first, program.procedures.as_slice())
}

/// Some cells, and those of the strings of procedures.
fn behind_procedures(first: u32, procedures: &[Procedure]) -> u32
    ensures { result ≡ finish string_cells first (texts_of procedures.now) }
{
    let mut at = first;
    for q in procedures {
        at = behind_strings(at, q.texts.as_slice());
    }
    at
}

/// The cells of the descriptors of so many record types.
fn descriptor_cells(records: usize) -> u32
    ensures { result ≡ min (16 * records) 16777215 }
{
    if records < 1048576 {
        (16 * records as u32).min(16777215)
    } else {
        16777215
    }
}

/// Some cells, and those of strings.
fn behind_strings(first: u32, texts: &[Characters]) -> u32
    ensures { Counts first result texts.now }
{
    let mut at = first;
    for text in texts {
        at = behind_string(at, text.len());
    }
    at
}

/// Some cells, and those of a string of so many characters, with its 0X.
fn behind_string(at: u32, characters: usize) -> u32
    ensures { result ≡ min (at + suc characters) 16777215 }
{
    if characters < 16777215 {
        beyond(at, characters as u32 + 1)
    } else {
        16777215
    }
}
