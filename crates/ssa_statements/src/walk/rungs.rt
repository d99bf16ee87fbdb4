//! The tests of CASE, part by part.

ghost use Rattle.std.specs.Prelude.{◌≡◌, OnOk, IfOk, ◌++◌};
ghost use Rattle.ssa_statements.specs.walk.Rungs.{coded_labels, coded_cases, coded_types, kind_of};

use crate::cases::{Choice, Rung};
use ob_types::{CasePart, Label, TypePart};
use outside::Memory;
use std::alloc::Global;

/// What a dynamic type is that of.
#[derive(Clone, Copy)]
pub enum Dynamic {
    /// A pointer's object.
    Pointer,
    /// A VAR record parameter.
    Parameter,
}

/// What a part is chosen by where types decide.
fn chosen_by(kind: Dynamic, r: u32) -> Choice
    ensures { result ≡ kind_of kind r }
{
    match kind {
        Dynamic::Pointer => Choice::Pointer(r),
        Dynamic::Parameter => Choice::Parameter(r),
    }
}

/// The tests of all parts of CASE.
pub fn of_cases(alloc: Global, parts: &[CasePart]) -> Result<Vec<Rung>, Memory>
    ensures { IfOk result (λ list. list.items ≡ coded_cases 0 parts.now) }
{
    let mut list = Vec::new(alloc);
    for part in 0..parts.len() {
        add_labels(parts[part].labels.as_slice(), part, &mut list)?;
    }
    Ok(list)
}

/// The tests of a part, label by label.
fn add_labels(labels: &[Label], part: usize, list: &mut Vec<Rung>) -> Result<(), Memory>
    ensures { OnOk result (list.new.items ≡ list.old.items ++ coded_labels part labels.now) }
{
    for label in labels {
        list.push(Rung {
            choice: Choice::Value(*label),
            part,
        })?;
    }
    Ok(())
}

/// The tests of all parts of CASE on types.
pub fn of_types(alloc: Global, kind: Dynamic, parts: &[TypePart]) -> Result<Vec<Rung>, Memory>
    ensures { IfOk result (λ list. list.items ≡ coded_types kind 0 parts.now) }
{
    let mut list = Vec::new(alloc);
    for part in 0..parts.len() {
        list.push(Rung {
            choice: chosen_by(kind, parts[part].record),
            part,
        })?;
    }
    Ok(list)
}
