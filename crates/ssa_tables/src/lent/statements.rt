//! Statements, and whole procedures.

ghost use Rattle.std.specs.Prelude.{◌≡◌, ◌||◌, ℕ, OnOk, IfOk};
ghost use Rattle.ssa_assigned.specs.Assigned.{has};
ghost use Rattle.ssa_lowered.specs.Variables.{lent, lent_at, lent_whole, lent_by, lent_by_answer};
ghost use Rattle.ssa_lowered.specs.Lowered.{lent_in_body};
ghost use Rattle.ssa_tables.specs.lent.Lent.{lent_by_statements, lent_by_parts, lent_by_cases, lent_by_types};

use crate::lent::expressions::{lend, lend_call, lend_read, lend_whole};
use items::Items;
use ob_types::{Branch, CasePart, Checked, Designator, ForLoop, Procedure, Stmt, TypePart};
use outside::Memory;
use std::alloc::Global;

/// By statements.
#[cycle(statements)]
pub fn lend_all(list: &[Stmt], found: &mut Vec<u32>) -> Result<(), Memory>
    ensures { OnOk result ((x : ℕ) → has found.new.items x ≡ (has found.old.items x || lent_by_statements list.now x)) }
{
    for s in list {
        lend_statement(s, found)?;
    }
    Ok(())
}

/// By the parts of IF or WHILE.
#[cycle(statements)]
fn lend_parts(parts: &[Branch], found: &mut Vec<u32>) -> Result<(), Memory>
    ensures { OnOk result ((x : ℕ) → has found.new.items x ≡ (has found.old.items x || lent_by_parts parts.now x)) }
{
    for part in parts {
        lend(&part.condition.form, found)?;
        lend_all(part.body.as_slice(), found)?;
    }
    Ok(())
}

/// By the parts of CASE.
#[cycle(statements)]
fn lend_cases(parts: &[CasePart], found: &mut Vec<u32>) -> Result<(), Memory>
    ensures { OnOk result ((x : ℕ) → has found.new.items x ≡ (has found.old.items x || lent_by_cases parts.now x)) }
{
    for part in parts {
        lend_all(part.body.as_slice(), found)?;
    }
    Ok(())
}

/// By the parts of CASE on types.
#[cycle(statements)]
fn lend_types(parts: &[TypePart], found: &mut Vec<u32>) -> Result<(), Memory>
    ensures { OnOk result ((x : ℕ) → has found.new.items x ≡ (has found.old.items x || lent_by_types parts.now x)) }
{
    for part in parts {
        lend_all(part.body.as_slice(), found)?;
    }
    Ok(())
}

/// By a variable that is changed, and the value.
fn lend_change(variable: &Designator, value: &Checked, found: &mut Vec<u32>) -> Result<(), Memory>
    ensures { OnOk result ((x : ℕ) → has found.new.items x ≡ (has found.old.items x || (lent_at variable.now x || lent value.now.form x))) }
{
    lend_read(variable, found)?;
    lend(&value.form, found)?;
    Ok(())
}

/// By what is copied, and where.
fn lend_copy(to: &Designator, from: &Designator, found: &mut Vec<u32>) -> Result<(), Memory>
    ensures { OnOk result ((x : ℕ) → has found.new.items x ≡ (has found.old.items x || (lent_whole to.now x || lent_whole from.now x))) }
{
    lend_whole(to, found)?;
    lend_whole(from, found)?;
    Ok(())
}

/// By a statement.
#[cycle(statements)]
fn lend_statement(s: &Stmt, found: &mut Vec<u32>) -> Result<(), Memory>
    ensures { OnOk result ((x : ℕ) → has found.new.items x ≡ (has found.old.items x || lent_by s.now x)) }
{
    match s {
        Stmt::Assign(d, x) => lend_change(d, x, found),
        Stmt::CopyArray(d, e) => lend_copy(d, e, found),
        Stmt::CopyRecord(d, e) => lend_copy(d, e, found),
        Stmt::Increase(d, x) => lend_change(d, x, found),
        Stmt::Decrease(d, x) => lend_change(d, x, found),
        Stmt::Include(d, x) => lend_change(d, x, found),
        Stmt::Exclude(d, x) => lend_change(d, x, found),
        Stmt::New(d) => lend_read(d, found),
        Stmt::Assert(x) => lend(&x.form, found),
        Stmt::OutChar(x) => lend(&x.form, found),
        Stmt::OutInt(x, n) => {
            lend(&x.form, found)?;
            lend(&n.form, found)?;
            Ok(())
        }
        Stmt::OutString(d) => lend_whole(d, found),
        Stmt::OutLn => Ok(()),
        Stmt::InChar(d) => lend_whole(d, found),
        Stmt::Call(c) => lend_call(c, found),
        Stmt::If(parts, other) => {
            lend_parts(parts, found)?;
            lend_all(other, found)?;
            Ok(())
        }
        Stmt::While(parts) => {
            lend_parts(parts, found)?;
            Ok(())
        }
        Stmt::Repeat(body, x) => {
            lend_all(body, found)?;
            lend(&x.form, found)?;
            Ok(())
        }
        Stmt::For(inner) => {
            let for_loop: &ForLoop = inner;
            lend_read(&for_loop.variable, found)?;
            lend(&for_loop.first.form, found)?;
            lend(&for_loop.limit.form, found)?;
            lend_all(for_loop.body.as_slice(), found)?;
            Ok(())
        }
        Stmt::Case(x, parts) => {
            lend(&x.form, found)?;
            lend_cases(parts, found)?;
            Ok(())
        }
        Stmt::CasePointer(x, parts) => {
            lend(&x.form, found)?;
            lend_types(parts, found)?;
            Ok(())
        }
        Stmt::CaseParameter(d, parts) => {
            lend_whole(d, found)?;
            lend_types(parts, found)?;
            Ok(())
        }
    }
}

/// By the expression behind RETURN.
fn lend_answer(answer: &Option<Checked>, found: &mut Vec<u32>) -> Result<(), Memory>
    ensures { OnOk result ((x : ℕ) → has found.new.items x ≡ (has found.old.items x || lent_by_answer answer.now x)) }
{
    match answer {
        None => Ok(()),
        Some(x) => {
            lend(&x.form, found)?;
            Ok(())
        }
    }
}

/// The variables of a procedure whose addresses are made, with repetitions, in the order of the tree.
pub fn lend_in_body(alloc: Global, procedure: &Procedure) -> Result<Items<u32>, Memory>
    ensures { IfOk result (λ list. (x : ℕ) → has list x ≡ lent_in_body procedure.now x) }
{
    let mut found = Vec::new(alloc);
    lend_all(procedure.body.as_slice(), &mut found)?;
    lend_answer(&procedure.answer, &mut found)?;
    Ok(Items::from_vec(found))
}
