//! Conditions, the parts of FOR, and the result of a procedure.

ghost use Rattle.std.specs.Prelude.{◌≡◌, Option, option_map, not, pos};
ghost use Rattle.std.specs.Ordering.{int_eq};
ghost use Rattle.ob_syntax.specs.Plain.{plain_expression, plain_option, plain_by, plain_returned};
ghost use Rattle.ob_judge.specs.Scopes.{place};
ghost use Rattle.ob_judge.specs.Assignments.{condition as judged_condition, number as judged_number, integer_variable, step_of as judged_step};
ghost use Rattle.ob_judge.specs.Declarations.{answer as judged_answer};
ghost use Rattle.judged_tree.specs.Plain.{plain_designator};
ghost use Rattle.judged_tree.specs.Outline.{outlined_designator};
ghost use Rattle.check_types.specs.steps.Answers.{Answers};
ghost use Rattle.check_types.specs.TypeMeaning.{type_shape};
ghost use Rattle.check_types.specs.names.Meaning.{object_of};
ghost use Rattle.check_types.specs.names.Worlds.{table_of, strings_of, world_of};
ghost use Rattle.check_operands.specs.Operands.{texts_of, bases_of};
ghost use Rattle.check_selectors.specs.standard.Made.{IsChecked};
ghost use Rattle.check_statements.specs.assignments.Assigned.{IsNumber, IsAnswer, step_in as judged_step_in, returned as judged_result};

use check_expressions::constants::{constant, integer};
use check_expressions::expression;
use check_operands::calls::{may_assign, stored};
use check_operands::symbols::expression_first;
use check_operands::{checked, designator};
use check_selectors::parts::whole_operand;
use check_types::TypeRef;
use check_types::names::{Named, Scope};
use check_types::steps::CheckFault;
use ob_syntax::declarations::Returned;
use ob_syntax::expressions::Expression;
use ob_syntax::statements::By;
use ob_types::{Checked, Designator};
use std::alloc::Global;

/// A condition: 31 unless it is BOOLEAN.
pub fn condition<'a>(
    scope: &Scope<'a>,
    alloc: Global,
    tree: &Expression,
) -> Result<Checked, CheckFault>
    ensures { Answers (IsChecked scope.now)
        (judged_condition scope.now.source.now (world_of scope.now) (plain_expression tree.now)) result }
{
    let x = expression(scope, alloc, tree)?;
    if x.of.is_truth() {
        Ok(checked(scope, x))
    } else {
        Err(scope.source.fault(31, expression_first(tree)))
    }
}

/// A number: else 31.
pub fn number<'a>(
    scope: &Scope<'a>,
    alloc: Global,
    tree: &Expression,
) -> Result<Checked, CheckFault>
    ensures { Answers (IsChecked scope.now)
        (judged_number scope.now.source.now (world_of scope.now) (plain_expression tree.now)) result }
{
    let x = expression(scope, alloc, tree)?;
    if x.of.is_number() {
        Ok(checked(scope, x))
    } else {
        Err(scope.source.fault(31, expression_first(tree)))
    }
}

/// The variable of a FOR statement, if the name stands for one of type INTEGER.
pub fn control_variable<'a>(scope: &Scope<'a>, named: Named) -> Option<Designator>
    ensures { option_map (plain_designator (table_of scope.now) (texts_of scope.now)) result
        ≡ option_map (outlined_designator (bases_of scope.now))
        (integer_variable (world_of scope.now) (object_of (table_of scope.now) (strings_of scope.now) named)) }
{
    match named {
        Named::Variable(variable) => match variable.of {
            TypeRef::Int => Some(designator(scope, whole_operand(scope, variable))),
            _ => None,
        },
        _ => None,
    }
}

// A number that a step may be.
fn is_step(found: i64) -> bool
    ensures { result ≡ not (int_eq found (pos 0)) }
{
    found != 0
}

// The step that an expression is.
fn step_in<'a>(scope: &Scope<'a>, alloc: Global, tree: &Expression) -> Result<i64, CheckFault>
    ensures { Answers IsNumber (judged_step_in scope.now.source.now (world_of scope.now) (plain_expression tree.now)) result }
{
    let value = constant(scope, alloc, tree)?;
    match integer(value) {
        None => Err(scope.source.fault(31, expression_first(tree))),
        Some(found) => {
            if is_step(found) {
                Ok(found)
            } else {
                Err(scope.source.fault(35, expression_first(tree)))
            }
        }
    }
}

/// The step of a FOR statement: 31 unless it is a constant INTEGER, 35 where it is 0.
pub fn step<'a>(scope: &Scope<'a>, alloc: Global, tree: &Option<By>) -> Result<i64, CheckFault>
    ensures { Answers IsNumber
        (judged_step scope.now.source.now (world_of scope.now) (plain_option plain_by tree.now)) result }
{
    match tree {
        None => Ok(1),
        Some(by) => step_in(scope, alloc, &by.step),
    }
}

// What is given back: 41 at RETURN where there is no result, 31 unless it may be assigned to its type.
fn returned<'a>(
    scope: &Scope<'a>,
    alloc: Global,
    to: TypeRef,
    tree: &Returned,
) -> Result<Checked, CheckFault>
    ensures { Answers (IsChecked scope.now)
        (judged_result scope.now.source.now (world_of scope.now) (type_shape (table_of scope.now) to) tree.now) result }
{
    let x = expression(scope, alloc, &tree.value)?;
    if to.is_nothing() {
        Err(scope.source.fault(41, tree.return_word))
    } else if may_assign(scope, to, &x) {
        let value = stored(scope, alloc, to, x)?;
        Ok(value)
    } else {
        Err(scope.source.fault(31, expression_first(&tree.value)))
    }
}

/// The result of a procedure: 41 at END where there is one but no RETURN, and at RETURN where there is none.
pub fn answer<'a>(
    scope: &Scope<'a>,
    alloc: Global,
    to: TypeRef,
    end_word: u32,
    tree: &Option<Returned>,
) -> Result<Option<Checked>, CheckFault>
    ensures { Answers (IsAnswer scope.now)
        (judged_answer scope.now.source.now (type_shape (table_of scope.now) to) end_word (plain_option plain_returned tree.now)
        (world_of scope.now))
        result }
{
    match tree {
        None => {
            if to.is_nothing() {
                Ok(None)
            } else {
                Err(scope.source.fault(41, end_word))
            }
        }
        Some(tree) => {
            let value = returned(scope, alloc, to, tree)?;
            Ok(Some(value))
        }
    }
}
