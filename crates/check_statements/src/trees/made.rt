//! Statements and their parts.

ghost use Rattle.std.specs.Prelude.{◌≡◌, ℕ, List, IfOk};
ghost use Rattle.ob_types.specs.Table.{Table};
ghost use Rattle.ob_judge.specs.Image as I;
ghost use Rattle.judged_tree.specs.Plain.{plain_designator, plain_checked, plain_statement, plain_body};
ghost use Rattle.check_statements.specs.trees.Onto.{statements_onto, branches_onto, case_parts_onto, type_parts_onto};

use items::Items;
use ob_types::{Branch, CasePart, Checked, Designator, ForLoop, Label, Stmt, TypePart};
use std::alloc::{AllocError, Global};

/// One more statement.
pub fn with_statement(so_far: Vec<Stmt>, made: Stmt) -> Result<Vec<Stmt>, AllocError>
    ensures { IfOk result (λ v. (t : Table) (texts : List (List ℕ)) (rest : I.Statements) →
        statements_onto t texts v.items rest ≡ statements_onto t texts so_far.items (I.next_statement (plain_statement t texts made) rest)) }
{
    let mut all = so_far;
    all.push(made)?;
    Ok(all)
}

/// One more branch.
pub fn with_branch(
    so_far: Vec<Branch>,
    condition: Checked,
    body: Vec<Stmt>,
) -> Result<Vec<Branch>, AllocError>
    ensures { IfOk result (λ v. (t : Table) (texts : List (List ℕ)) (rest : I.Branches) →
        branches_onto t texts v.items rest
        ≡ branches_onto t texts so_far.items (I.next_branch (plain_checked t texts condition) (plain_body t texts body.items) rest)) }
{
    let mut all = so_far;
    all.push(Branch { condition, body })?;
    Ok(all)
}

/// One more part of a CASE on values.
pub fn with_case_part(
    so_far: Vec<CasePart>,
    labels: Items<Label>,
    body: Vec<Stmt>,
) -> Result<Vec<CasePart>, AllocError>
    ensures { IfOk result (λ v. (t : Table) (texts : List (List ℕ)) (rest : I.Parts) →
        case_parts_onto t texts v.items rest
        ≡ case_parts_onto t texts so_far.items (I.next_part (I.Labels labels) (plain_body t texts body.items) rest)) }
{
    let mut all = so_far;
    all.push(CasePart { labels, body })?;
    Ok(all)
}

/// One more part of a CASE on types.
pub fn with_type_part(
    so_far: Vec<TypePart>,
    tag: u32,
    body: Vec<Stmt>,
) -> Result<Vec<TypePart>, AllocError>
    ensures { IfOk result (λ v. (t : Table) (texts : List (List ℕ)) (rest : I.Parts) →
        type_parts_onto t texts v.items rest
        ≡ type_parts_onto t texts so_far.items (I.next_part (I.Extends tag) (plain_body t texts body.items) rest)) }
{
    let mut all = so_far;
    all.push(TypePart { record: tag, body })?;
    Ok(all)
}

/// IF.
pub fn if_statement(branches: Vec<Branch>, otherwise: Vec<Stmt>) -> Stmt
    ensures { (t : Table) (texts : List (List ℕ)) → plain_statement t texts result
        ≡ I.If (branches_onto t texts branches.items I.no_branch) (plain_body t texts otherwise.items) }
{
    Stmt::If(branches, otherwise)
}

/// WHILE.
pub fn while_statement(branches: Vec<Branch>) -> Stmt
    ensures { (t : Table) (texts : List (List ℕ)) →
        plain_statement t texts result ≡ I.While (branches_onto t texts branches.items I.no_branch) }
{
    Stmt::While(branches)
}

/// REPEAT.
pub fn repeat_statement(body: Vec<Stmt>, condition: Checked) -> Stmt
    ensures { (t : Table) (texts : List (List ℕ)) →
        plain_statement t texts result ≡ I.Repeat (plain_body t texts body.items) (plain_checked t texts condition) }
{
    Stmt::Repeat(body, condition)
}

/// FOR.
pub fn for_statement(
    alloc: Global,
    variable: Designator,
    first: Checked,
    limit: Checked,
    step: i64,
    body: Vec<Stmt>,
) -> Result<Stmt, AllocError>
    ensures { IfOk result (λ made. (t : Table) (texts : List (List ℕ)) → plain_statement t texts made
        ≡ I.For (plain_designator t texts variable) (plain_checked t texts first) (plain_checked t texts limit) step
        (plain_body t texts body.items)) }
{
    let whole = Box::new(
        alloc,
        ForLoop {
            variable,
            first,
            limit,
            step,
            body,
        },
    )?;
    Ok(Stmt::For(whole))
}

/// CASE on values.
pub fn case_values(selector: Checked, parts: Vec<CasePart>) -> Stmt
    ensures { (t : Table) (texts : List (List ℕ)) → plain_statement t texts result
        ≡ I.Case (plain_checked t texts selector) (case_parts_onto t texts parts.items I.no_part) }
{
    Stmt::Case(selector, parts)
}

/// CASE on the type of a pointer's object.
pub fn case_pointer(selector: Checked, parts: Vec<TypePart>) -> Stmt
    ensures { (t : Table) (texts : List (List ℕ)) → plain_statement t texts result
        ≡ I.CasePointer (plain_checked t texts selector) (type_parts_onto t texts parts.items I.no_part) }
{
    Stmt::CasePointer(selector, parts)
}

/// CASE on the type of a VAR record parameter.
pub fn case_parameter(selector: Designator, parts: Vec<TypePart>) -> Stmt
    ensures { (t : Table) (texts : List (List ℕ)) → plain_statement t texts result
        ≡ I.CaseParameter (plain_designator t texts selector) (type_parts_onto t texts parts.items I.no_part) }
{
    Stmt::CaseParameter(selector, parts)
}
