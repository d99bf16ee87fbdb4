//! Which variables statements assign.

ghost use Rattle.std.specs.Prelude.{◌≡◌, ◌||◌, ℕ, OnOk};
ghost use Rattle.ssa_lowered.specs.Variables.{itself, origin, assigned};
ghost use Rattle.ssa_assigned.specs.Assigned.{has, unselected_by, assigned_list, assigned_parts, assigned_cases, assigned_types};

use ob_types::{Access, Base, Branch, CasePart, Designator, ForLoop, Selector, Stmt, TypePart};
use outside::Memory;

/// The variable that a designator is as a whole.
pub fn note_whole(d: &Designator, found: &mut Vec<u32>) -> Result<(), Memory>
    ensures { OnOk result ((x : ℕ) → has found.new.items x ≡ (has found.old.items x || itself d.now x)) }
{
    match d {
        Designator::Whole(base, _) => note_base(*base, found),
        Designator::Part(inner) => {
            let access: &Access = inner;
            note_unselected(access.base, access.selectors.as_slice(), found)?;
            Ok(())
        }
    }
}

/// A local variable, where no selector is behind it.
pub fn note_unselected(
    base: Base,
    selectors: &[Selector],
    found: &mut Vec<u32>,
) -> Result<(), Memory>
    ensures { OnOk result ((x : ℕ) → has found.new.items x ≡ (has found.old.items x || unselected_by (origin base) selectors.now x)) }
{
    if selectors.is_empty() {
        note_base(base, found)
    } else {
        Ok(())
    }
}

/// A local variable at which a designator begins.
pub fn note_base(base: Base, found: &mut Vec<u32>) -> Result<(), Memory>
    ensures { OnOk result ((x : ℕ) → has found.new.items x ≡ (has found.old.items x || origin base x)) }
{
    match base {
        Base::Local(x) => {
            found.push(x)?;
            Ok(())
        }
        Base::Done => Ok(()),
        Base::Global { .. } => Ok(()),
        Base::Parameter(_) => Ok(()),
        Base::Text(_) => Ok(()),
    }
}

/// The variables that statements assign.
#[cycle(noting)]
pub fn note_all(list: &[Stmt], found: &mut Vec<u32>) -> Result<(), Memory>
    ensures { OnOk result ((x : ℕ) → has found.new.items x ≡ (has found.old.items x || assigned_list list.now x)) }
{
    for s in list {
        note(s, found)?;
    }
    Ok(())
}

/// Those that the parts of IF or WHILE assign.
#[cycle(noting)]
pub fn note_parts(parts: &[Branch], found: &mut Vec<u32>) -> Result<(), Memory>
    ensures { OnOk result ((x : ℕ) → has found.new.items x ≡ (has found.old.items x || assigned_parts parts.now x)) }
{
    for part in parts {
        note_all(part.body.as_slice(), found)?;
    }
    Ok(())
}

/// Those that the parts of CASE assign.
#[cycle(noting)]
pub fn note_cases(parts: &[CasePart], found: &mut Vec<u32>) -> Result<(), Memory>
    ensures { OnOk result ((x : ℕ) → has found.new.items x ≡ (has found.old.items x || assigned_cases parts.now x)) }
{
    for part in parts {
        note_all(part.body.as_slice(), found)?;
    }
    Ok(())
}

/// Those that the parts of CASE on types assign.
#[cycle(noting)]
pub fn note_types(parts: &[TypePart], found: &mut Vec<u32>) -> Result<(), Memory>
    ensures { OnOk result ((x : ℕ) → has found.new.items x ≡ (has found.old.items x || assigned_types parts.now x)) }
{
    for part in parts {
        note_all(part.body.as_slice(), found)?;
    }
    Ok(())
}

/// Those that a statement assigns.
#[cycle(noting)]
pub fn note(s: &Stmt, found: &mut Vec<u32>) -> Result<(), Memory>
    ensures { OnOk result ((x : ℕ) → has found.new.items x ≡ (has found.old.items x || assigned s.now x)) }
{
    match s {
        Stmt::Assign(d, _) => {
            note_whole(d, found)?;
            Ok(())
        }
        Stmt::Increase(d, _) => {
            note_whole(d, found)?;
            Ok(())
        }
        Stmt::Decrease(d, _) => {
            note_whole(d, found)?;
            Ok(())
        }
        Stmt::Include(d, _) => {
            note_whole(d, found)?;
            Ok(())
        }
        Stmt::Exclude(d, _) => {
            note_whole(d, found)?;
            Ok(())
        }
        Stmt::New(d) => {
            note_whole(d, found)?;
            Ok(())
        }
        Stmt::If(parts, other) => {
            note_parts(parts, found)?;
            note_all(other, found)?;
            Ok(())
        }
        Stmt::While(parts) => {
            note_parts(parts, found)?;
            Ok(())
        }
        Stmt::Repeat(body, _) => {
            note_all(body, found)?;
            Ok(())
        }
        Stmt::For(inner) => {
            let for_loop: &ForLoop = inner;
            note_whole(&for_loop.variable, found)?;
            note_all(for_loop.body.as_slice(), found)?;
            Ok(())
        }
        Stmt::Case(_, parts) => {
            note_cases(parts, found)?;
            Ok(())
        }
        Stmt::CasePointer(_, parts) => {
            note_types(parts, found)?;
            Ok(())
        }
        Stmt::CaseParameter(_, parts) => {
            note_types(parts, found)?;
            Ok(())
        }
        Stmt::CopyArray(_, _) => Ok(()),
        Stmt::CopyRecord(_, _) => Ok(()),
        Stmt::Assert(_) => Ok(()),
        Stmt::OutChar(_) => Ok(()),
        Stmt::OutInt(_, _) => Ok(()),
        Stmt::OutString(_) => Ok(()),
        Stmt::OutLn => Ok(()),
        Stmt::InChar(_) => Ok(()),
        Stmt::Call(_) => Ok(()),
    }
}
