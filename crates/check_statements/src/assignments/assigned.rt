//! Assignments.

ghost use Rattle.std.specs.Prelude.{◌≡◌, ℕ, List, option_map};
ghost use Rattle.ob_types.specs.Table.{Table};
ghost use Rattle.ob_syntax.specs.Plain.{plain_expression, plain_designator, plain_each_selector};
ghost use Rattle.ob_judge.specs.Judged.{Judged, Keeps};
ghost use Rattle.ob_judge.specs.Scopes.{World};
ghost use Rattle.ob_judge.specs.Operands.{Operand as Judgement};
ghost use Rattle.ob_judge.specs.Assignments.{whole_object, destination as judged_destination, assigned as assigned_from, assignment as judged_assignment};
ghost use Rattle.check_types.specs.steps.Answers.{Answers};
ghost use Rattle.check_types.specs.names.Meaning.{object_of, variable_of};
ghost use Rattle.check_types.specs.names.Worlds.{world_of};
ghost use Rattle.check_operands.specs.Operands.{Stands};
ghost use Rattle.check_statements.specs.assignments.Assigned.{destined, IsStatement};

use check_expressions::{designator, expression};
use check_operands::calls::{may_assign, stored};
use check_operands::symbols::expression_first;
use check_operands::{Operand, designator as as_designator};
use check_selectors::parts::whole_operand;
use check_types::TypeRef;
use check_types::names::{Named, Scope, Variable};
use check_types::steps::CheckFault;
use ob_syntax::expressions::{Designator, Expression, Selector};
use ob_types::Stmt;
use std::alloc::Global;

// A variable that is named with no part of it.
fn variable_alone(named: Named, selectors: &[Selector]) -> Option<Variable>
    ensures { (t : Table) (strings : List (List ℕ)) (w : World) (other : Judged Judgement) →
        whole_object w (object_of t strings named) (plain_each_selector selectors.now) other
        ≡ destined w (option_map (variable_of t strings) result) other }
{
    if selectors.is_empty() {
        match named {
            Named::Variable(variable) => Some(variable),
            _ => None,
        }
    } else {
        None
    }
}

// What is assigned to. A variable that is the whole destination isn't read, so it isn't narrowed.
fn destination<'a>(
    scope: &Scope<'a>,
    alloc: Global,
    tree: &Designator,
) -> Result<Operand, CheckFault>
    ensures { Answers (Stands scope.now)
        (judged_destination scope.now.source.now (world_of scope.now) (plain_designator tree.now)) result }
{
    let named = scope.named(tree.name)?;
    match variable_alone(named, &tree.selectors) {
        Some(variable) => Ok(whole_operand(scope, variable)),
        None => designator(scope, alloc, tree),
    }
}

// The statement: how cells are copied is by the type of the variable.
fn assigned<'a>(
    scope: &Scope<'a>,
    alloc: Global,
    x: Operand,
    y: Operand,
) -> Result<Stmt, CheckFault>
    ensures { (a b : Judgement) → Stands scope.now x a → Stands scope.now y b →
        Answers (IsStatement scope.now)
        (Keeps (assigned_from a.shape a b)) result }
{
    match x.of {
        TypeRef::Array { .. } => Ok(Stmt::CopyArray(
            as_designator(scope, x),
            as_designator(scope, y),
        )),
        TypeRef::Open(_) => Ok(Stmt::CopyArray(as_designator(scope, x), as_designator(scope, y))),
        TypeRef::Record(_) => Ok(Stmt::CopyRecord(
            as_designator(scope, x),
            as_designator(scope, y),
        )),
        of => {
            let value = stored(scope, alloc, of, y)?;
            Ok(Stmt::Assign(as_designator(scope, x), value))
        }
    }
}

/// An assignment: 31 and 33 at the designator, and then 31 at the expression.
pub fn assignment<'a>(
    scope: &Scope<'a>,
    alloc: Global,
    tree: &Designator,
    value: &Expression,
) -> Result<Stmt, CheckFault>
    ensures { Answers (IsStatement scope.now)
        (judged_assignment scope.now.source.now (world_of scope.now) (plain_designator tree.now) (plain_expression value.now))
        result }
{
    let x = destination(scope, alloc, tree)?;
    let y = expression(scope, alloc, value)?;
    if !x.usage.is_variable() {
        Err(scope.source.fault(31, tree.name))
    } else if x.usage.is_read_only() {
        Err(scope.source.fault(33, tree.name))
    } else if !may_assign(scope, x.of, &y) {
        Err(scope.source.fault(31, expression_first(value)))
    } else {
        assigned(scope, alloc, x, y)
    }
}
