//! Statements.

ghost use Rattle.std.specs.Prelude.{◌≡◌, OnOk, true, false};
ghost use Rattle.check_procedures.specs.numbers.Numbering.{KeepsMeaning, numbering_of};
ghost use Rattle.check_procedures.specs.numbers.Readings.{each, pair, designators, checked, statements, bodies, loops, branches, case_parts, type_parts, is_compound, is_update};

use crate::numbers::expressions::{renumber_call, renumber_designator, renumber_expression};
use crate::numbers::numbers::type_kind;
use check_types::names::Scope;
use items::Items;
use ob_types::{Branch, CasePart, Characters, Checked, Designator, ForLoop, Stmt, TypePart};
use outside::Memory;
use std::alloc::Global;

/// A whole expression.
pub fn renumber_checked<'a>(
    scope: &Scope<'a>,
    alloc: Global,
    uses: &mut Items<Characters>,
    x: &mut Checked,
) -> Result<(), Memory>
    ensures { OnOk result (KeepsMeaning checked (numbering_of scope.now)
        (record { tree = x.old; made = x.new; before = uses.old; after = uses.new })) }
{
    renumber_expression(scope, alloc, uses, &mut x.form)?;
    x.kind = type_kind(scope.types, x.kind);
    Ok(())
}

// A variable, and what is done to it.
fn renumber_change<'a>(
    scope: &Scope<'a>,
    alloc: Global,
    uses: &mut Items<Characters>,
    d: &mut Designator,
    x: &mut Checked,
) -> Result<(), Memory>
    ensures { OnOk result (KeepsMeaning (pair designators checked) (numbering_of scope.now)
        (record { tree = (d.old, x.old); made = (d.new, x.new); before = uses.old; after = uses.new })) }
{
    renumber_designator(scope, alloc, uses, d)?;
    renumber_checked(scope, alloc, uses, x)?;
    Ok(())
}

// What is copied to, and from.
fn renumber_copy<'a>(
    scope: &Scope<'a>,
    alloc: Global,
    uses: &mut Items<Characters>,
    to: &mut Designator,
    from: &mut Designator,
) -> Result<(), Memory>
    ensures { OnOk result (KeepsMeaning (pair designators designators) (numbering_of scope.now)
        (record { tree = (to.old, from.old); made = (to.new, from.new); before = uses.old; after = uses.new })) }
{
    renumber_designator(scope, alloc, uses, to)?;
    renumber_designator(scope, alloc, uses, from)?;
    Ok(())
}

// FOR before DO: the variable, the first value and the limit.
fn renumber_head<'a>(
    scope: &Scope<'a>,
    alloc: Global,
    uses: &mut Items<Characters>,
    variable: &mut Designator,
    first: &mut Checked,
    limit: &mut Checked,
) -> Result<(), Memory>
    ensures { OnOk result (KeepsMeaning (pair (pair designators checked) checked) (numbering_of scope.now)
        (record {
          tree = ((variable.old, first.old), limit.old);
          made = ((variable.new, first.new), limit.new);
          before = uses.old;
          after = uses.new;
        })) }
{
    renumber_change(scope, alloc, uses, variable, first)?;
    renumber_checked(scope, alloc, uses, limit)?;
    Ok(())
}

/// Statements, one after the other.
#[cycle(statements)]
pub fn renumber_statements<'a>(
    scope: &Scope<'a>,
    alloc: Global,
    uses: &mut Items<Characters>,
    list: &mut Vec<Stmt>,
) -> Result<(), Memory>
    ensures { OnOk result (KeepsMeaning bodies (numbering_of scope.now)
        (record { tree = list.old.items; made = list.new.items; before = uses.old; after = uses.new })) }
{
    for i in 0..list.len() {
        renumber_statement(scope, alloc, uses, &mut list[i])?;
    }
    Ok(())
}

/// Whether a statement has statements in it.
fn has_statements(statement: &Stmt) -> bool
    ensures { result ≡ is_compound statement.now }
{
    match statement {
        Stmt::If(_, _) => true,
        Stmt::While(_) => true,
        Stmt::Repeat(_, _) => true,
        Stmt::For(_) => true,
        Stmt::Case(_, _) => true,
        Stmt::CasePointer(_, _) => true,
        Stmt::CaseParameter(_, _) => true,
        Stmt::Assign(_, _) => false,
        Stmt::CopyArray(_, _) => false,
        Stmt::CopyRecord(_, _) => false,
        Stmt::Increase(_, _) => false,
        Stmt::Decrease(_, _) => false,
        Stmt::Include(_, _) => false,
        Stmt::Exclude(_, _) => false,
        Stmt::New(_) => false,
        Stmt::Assert(_) => false,
        Stmt::OutChar(_) => false,
        Stmt::OutInt(_, _) => false,
        Stmt::OutString(_) => false,
        Stmt::OutLn => false,
        Stmt::InChar(_) => false,
        Stmt::Call(_) => false,
    }
}

/// Whether a statement gives a variable a value.
fn is_update_statement(statement: &Stmt) -> bool
    ensures { result ≡ is_update statement.now }
{
    match statement {
        Stmt::Assign(_, _) => true,
        Stmt::CopyArray(_, _) => true,
        Stmt::CopyRecord(_, _) => true,
        Stmt::Increase(_, _) => true,
        Stmt::Decrease(_, _) => true,
        Stmt::Include(_, _) => true,
        Stmt::Exclude(_, _) => true,
        Stmt::New(_) => false,
        Stmt::Assert(_) => false,
        Stmt::OutChar(_) => false,
        Stmt::OutInt(_, _) => false,
        Stmt::OutString(_) => false,
        Stmt::OutLn => false,
        Stmt::InChar(_) => false,
        Stmt::Call(_) => false,
        Stmt::If(_, _) => false,
        Stmt::While(_) => false,
        Stmt::Repeat(_, _) => false,
        Stmt::For(_) => false,
        Stmt::Case(_, _) => false,
        Stmt::CasePointer(_, _) => false,
        Stmt::CaseParameter(_, _) => false,
    }
}

/// A statement that gives a variable a value.
fn renumber_update<'a>(
    scope: &Scope<'a>,
    alloc: Global,
    uses: &mut Items<Characters>,
    statement: &mut Stmt,
) -> Result<(), Memory>
    ensures { OnOk result (is_update statement.old ≡ true → KeepsMeaning statements (numbering_of scope.now)
        (record { tree = statement.old; made = statement.new; before = uses.old; after = uses.new })) }
{
    match statement {
        Stmt::Assign(d, x) => {
            renumber_change(scope, alloc, uses, d, x)?;
            Ok(())
        }
        Stmt::CopyArray(to, from) => {
            renumber_copy(scope, alloc, uses, to, from)?;
            Ok(())
        }
        Stmt::CopyRecord(to, from) => {
            renumber_copy(scope, alloc, uses, to, from)?;
            Ok(())
        }
        Stmt::Increase(d, x) => {
            renumber_change(scope, alloc, uses, d, x)?;
            Ok(())
        }
        Stmt::Decrease(d, x) => {
            renumber_change(scope, alloc, uses, d, x)?;
            Ok(())
        }
        Stmt::Include(d, x) => {
            renumber_change(scope, alloc, uses, d, x)?;
            Ok(())
        }
        Stmt::Exclude(d, x) => {
            renumber_change(scope, alloc, uses, d, x)?;
            Ok(())
        }
        Stmt::New(_) => Ok(()),
        Stmt::Assert(_) => Ok(()),
        Stmt::OutChar(_) => Ok(()),
        Stmt::OutInt(_, _) => Ok(()),
        Stmt::OutString(_) => Ok(()),
        Stmt::OutLn => Ok(()),
        Stmt::InChar(_) => Ok(()),
        Stmt::Call(_) => Ok(()),
        Stmt::If(_, _) => Ok(()),
        Stmt::While(_) => Ok(()),
        Stmt::Repeat(_, _) => Ok(()),
        Stmt::For(_) => Ok(()),
        Stmt::Case(_, _) => Ok(()),
        Stmt::CasePointer(_, _) => Ok(()),
        Stmt::CaseParameter(_, _) => Ok(()),
    }
}

/// A statement that has no statements in it and gives no variable a value.
fn renumber_other<'a>(
    scope: &Scope<'a>,
    alloc: Global,
    uses: &mut Items<Characters>,
    statement: &mut Stmt,
) -> Result<(), Memory>
    ensures { OnOk result (is_compound statement.old ≡ false → is_update statement.old ≡ false
        → KeepsMeaning statements (numbering_of scope.now)
        (record { tree = statement.old; made = statement.new; before = uses.old; after = uses.new })) }
{
    match statement {
        Stmt::New(d) => {
            renumber_designator(scope, alloc, uses, d)?;
            Ok(())
        }
        Stmt::Assert(x) => {
            renumber_checked(scope, alloc, uses, x)?;
            Ok(())
        }
        Stmt::OutChar(x) => {
            renumber_checked(scope, alloc, uses, x)?;
            Ok(())
        }
        Stmt::OutInt(x, width) => {
            renumber_checked(scope, alloc, uses, x)?;
            renumber_checked(scope, alloc, uses, width)?;
            Ok(())
        }
        Stmt::OutString(d) => {
            renumber_designator(scope, alloc, uses, d)?;
            Ok(())
        }
        Stmt::OutLn => Ok(()),
        Stmt::InChar(d) => {
            renumber_designator(scope, alloc, uses, d)?;
            Ok(())
        }
        Stmt::Call(call) => {
            renumber_call(scope, alloc, uses, call)?;
            Ok(())
        }
        Stmt::Assign(_, _) => Ok(()),
        Stmt::CopyArray(_, _) => Ok(()),
        Stmt::CopyRecord(_, _) => Ok(()),
        Stmt::Increase(_, _) => Ok(()),
        Stmt::Decrease(_, _) => Ok(()),
        Stmt::Include(_, _) => Ok(()),
        Stmt::Exclude(_, _) => Ok(()),
        Stmt::If(_, _) => Ok(()),
        Stmt::While(_) => Ok(()),
        Stmt::Repeat(_, _) => Ok(()),
        Stmt::For(_) => Ok(()),
        Stmt::Case(_, _) => Ok(()),
        Stmt::CasePointer(_, _) => Ok(()),
        Stmt::CaseParameter(_, _) => Ok(()),
    }
}

/// A statement that has no statements in it.
fn renumber_simple<'a>(
    scope: &Scope<'a>,
    alloc: Global,
    uses: &mut Items<Characters>,
    statement: &mut Stmt,
) -> Result<(), Memory>
    ensures { OnOk result (is_compound statement.old ≡ false → KeepsMeaning statements (numbering_of scope.now)
        (record { tree = statement.old; made = statement.new; before = uses.old; after = uses.new })) }
{
    if is_update_statement(statement) {
        renumber_update(scope, alloc, uses, statement)?;
        return Ok(());
    }
    renumber_other(scope, alloc, uses, statement)?;
    Ok(())
}

/// A statement that has statements in it.
#[cycle(statements)]
fn renumber_compound<'a>(
    scope: &Scope<'a>,
    alloc: Global,
    uses: &mut Items<Characters>,
    statement: &mut Stmt,
) -> Result<(), Memory>
    ensures { OnOk result (is_compound statement.old ≡ true → KeepsMeaning statements (numbering_of scope.now)
        (record { tree = statement.old; made = statement.new; before = uses.old; after = uses.new })) }
{
    match statement {
        Stmt::If(list, otherwise) => {
            renumber_branches(scope, alloc, uses, list)?;
            renumber_statements(scope, alloc, uses, otherwise)?;
            Ok(())
        }
        Stmt::While(list) => {
            renumber_branches(scope, alloc, uses, list)?;
            Ok(())
        }
        Stmt::Repeat(body, x) => {
            renumber_statements(scope, alloc, uses, body)?;
            renumber_checked(scope, alloc, uses, x)?;
            Ok(())
        }
        Stmt::For(for_loop) => {
            renumber_loop(scope, alloc, uses, for_loop)?;
            Ok(())
        }
        Stmt::Case(x, list) => {
            renumber_checked(scope, alloc, uses, x)?;
            renumber_case_parts(scope, alloc, uses, list)?;
            Ok(())
        }
        Stmt::CasePointer(x, list) => {
            renumber_checked(scope, alloc, uses, x)?;
            renumber_type_parts(scope, alloc, uses, list)?;
            Ok(())
        }
        Stmt::CaseParameter(d, list) => {
            renumber_designator(scope, alloc, uses, d)?;
            renumber_type_parts(scope, alloc, uses, list)?;
            Ok(())
        }
        Stmt::Assign(_, _) => Ok(()),
        Stmt::CopyArray(_, _) => Ok(()),
        Stmt::CopyRecord(_, _) => Ok(()),
        Stmt::Increase(_, _) => Ok(()),
        Stmt::Decrease(_, _) => Ok(()),
        Stmt::Include(_, _) => Ok(()),
        Stmt::Exclude(_, _) => Ok(()),
        Stmt::New(_) => Ok(()),
        Stmt::Assert(_) => Ok(()),
        Stmt::OutChar(_) => Ok(()),
        Stmt::OutInt(_, _) => Ok(()),
        Stmt::OutString(_) => Ok(()),
        Stmt::OutLn => Ok(()),
        Stmt::InChar(_) => Ok(()),
        Stmt::Call(_) => Ok(()),
    }
}

/// A statement.
#[cycle(statements)]
fn renumber_statement<'a>(
    scope: &Scope<'a>,
    alloc: Global,
    uses: &mut Items<Characters>,
    statement: &mut Stmt,
) -> Result<(), Memory>
    ensures { OnOk result (KeepsMeaning statements (numbering_of scope.now)
        (record { tree = statement.old; made = statement.new; before = uses.old; after = uses.new })) }
{
    if has_statements(statement) {
        renumber_compound(scope, alloc, uses, statement)?;
        return Ok(());
    }
    renumber_simple(scope, alloc, uses, statement)?;
    Ok(())
}

/// A FOR statement. Its step stays as it is.
#[cycle(statements)]
fn renumber_loop<'a>(
    scope: &Scope<'a>,
    alloc: Global,
    uses: &mut Items<Characters>,
    for_loop: &mut ForLoop,
) -> Result<(), Memory>
    ensures { OnOk result (KeepsMeaning loops (numbering_of scope.now)
        (record { tree = for_loop.old; made = for_loop.new; before = uses.old; after = uses.new })) }
{
    renumber_head(
        scope,
        alloc,
        uses,
        &mut for_loop.variable,
        &mut for_loop.first,
        &mut for_loop.limit,
    )?;
    renumber_statements(scope, alloc, uses, &mut for_loop.body)?;
    Ok(())
}

/// The branches of IF or WHILE.
#[cycle(statements)]
fn renumber_branches<'a>(
    scope: &Scope<'a>,
    alloc: Global,
    uses: &mut Items<Characters>,
    list: &mut Vec<Branch>,
) -> Result<(), Memory>
    ensures { OnOk result (KeepsMeaning (each branches) (numbering_of scope.now)
        (record { tree = list.old.items; made = list.new.items; before = uses.old; after = uses.new })) }
{
    for i in 0..list.len() {
        renumber_branch(scope, alloc, uses, &mut list[i])?;
    }
    Ok(())
}

/// A branch.
#[cycle(statements)]
fn renumber_branch<'a>(
    scope: &Scope<'a>,
    alloc: Global,
    uses: &mut Items<Characters>,
    branch: &mut Branch,
) -> Result<(), Memory>
    ensures { OnOk result (KeepsMeaning branches (numbering_of scope.now)
        (record { tree = branch.old; made = branch.new; before = uses.old; after = uses.new })) }
{
    renumber_checked(scope, alloc, uses, &mut branch.condition)?;
    renumber_statements(scope, alloc, uses, &mut branch.body)?;
    Ok(())
}

/// The parts of a CASE on values.
#[cycle(statements)]
fn renumber_case_parts<'a>(
    scope: &Scope<'a>,
    alloc: Global,
    uses: &mut Items<Characters>,
    list: &mut Vec<CasePart>,
) -> Result<(), Memory>
    ensures { OnOk result (KeepsMeaning (each case_parts) (numbering_of scope.now)
        (record { tree = list.old.items; made = list.new.items; before = uses.old; after = uses.new })) }
{
    for i in 0..list.len() {
        renumber_case_part(scope, alloc, uses, &mut list[i])?;
    }
    Ok(())
}

/// A part of a CASE on values.
#[cycle(statements)]
fn renumber_case_part<'a>(
    scope: &Scope<'a>,
    alloc: Global,
    uses: &mut Items<Characters>,
    part: &mut CasePart,
) -> Result<(), Memory>
    ensures { OnOk result (KeepsMeaning case_parts (numbering_of scope.now)
        (record { tree = part.old; made = part.new; before = uses.old; after = uses.new })) }
{
    renumber_statements(scope, alloc, uses, &mut part.body)?;
    Ok(())
}

/// The parts of a CASE on types.
#[cycle(statements)]
fn renumber_type_parts<'a>(
    scope: &Scope<'a>,
    alloc: Global,
    uses: &mut Items<Characters>,
    list: &mut Vec<TypePart>,
) -> Result<(), Memory>
    ensures { OnOk result (KeepsMeaning (each type_parts) (numbering_of scope.now)
        (record { tree = list.old.items; made = list.new.items; before = uses.old; after = uses.new })) }
{
    for i in 0..list.len() {
        renumber_type_part(scope, alloc, uses, &mut list[i])?;
    }
    Ok(())
}

/// A part of a CASE on types.
#[cycle(statements)]
fn renumber_type_part<'a>(
    scope: &Scope<'a>,
    alloc: Global,
    uses: &mut Items<Characters>,
    part: &mut TypePart,
) -> Result<(), Memory>
    ensures { OnOk result (KeepsMeaning type_parts (numbering_of scope.now)
        (record { tree = part.old; made = part.new; before = uses.old; after = uses.new })) }
{
    renumber_statements(scope, alloc, uses, &mut part.body)?;
    Ok(())
}
