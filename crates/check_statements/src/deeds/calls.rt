//! Calls that are statements.

ghost use Rattle.std.specs.Prelude.{◌≡◌, Option, Some, List, ℕ, option_map};
ghost use Rattle.ob_types.specs.Table.{Table};
ghost use Rattle.ob_syntax.specs.Plain.{plain_designator, plain_each_selector, plain_option, plain_assigned};
ghost use Rattle.ob_judge.specs.Scopes.{Object, place};
ghost use Rattle.ob_judge.specs.Operands.{Operand as Judgement, What as JudgedWhat};
ghost use Rattle.ob_judge.specs.Expressions.{designator as judged_designator};
ghost use Rattle.ob_judge.specs.Assignments.{alone as judged_alone, called_alone as judged_standard_alone, is_call as tests_call, called_bare as judged_bare_call, deed_of as judged_deed, call_statement as judged_call, assign_or_call as judged_deed_or_call};
ghost use Rattle.ob_judge.specs.Image.{Invoke};
ghost use Rattle.judged_tree.specs.Plain.{plain_expr, plain_statement};
ghost use Rattle.judged_tree.specs.Outline.{outlined_statement};
ghost use Rattle.check_types.specs.steps.Answers.{Answers};
ghost use Rattle.check_types.specs.names.Meaning.{object_of, standard_of};
ghost use Rattle.check_types.specs.names.Worlds.{table_of, strings_of, world_of};
ghost use Rattle.check_operands.specs.Operands.{texts_of, bases_of, what_image, outlined_what, Stands};
ghost use Rattle.check_statements.specs.assignments.Assigned.{IsStatement};
ghost use Rattle.check_statements.specs.deeds.Deeds.{standard_alone, IsAlone, member_alone as judged_member, field_alone, is_result, call_by, deed_by};

use crate::assignments::assignment;
use check_expressions::designator;
use check_operands::calls::called;
use check_operands::{Operand, What};
use check_selectors::standard::standard;
use check_types::TypeRef;
use check_types::names::{Imported, Named, Scope, Standard};
use check_types::steps::CheckFault;
use ob_syntax::expressions::{Designator, Selector};
use ob_syntax::statements::{AssignOrCall, Assigned};
use ob_types::{Expr, Stmt};
use std::alloc::Global;

// The standard procedure that a name stands for.
fn standard_named(named: Named) -> Option<Standard>
    ensures { (t : Table) (strings : List (List ℕ)) →
        standard_alone (Some (object_of t strings named)) ≡ option_map standard_of result }
{
    match named {
        Named::Standard(s) => Some(s),
        _ => None,
    }
}

// A name behind a module's.
fn member_alone<'a>(scope: &Scope<'a>, named: Named, i: u32) -> Result<Option<Standard>, CheckFault>
    ensures { Answers IsAlone
        (judged_member scope.now.source.now (world_of scope.now) (object_of (table_of scope.now) (strings_of scope.now) named) i)
        result }
{
    match named {
        Named::Module(imported) => {
            let member = scope.member(imported, i)?;
            Ok(standard_named(member))
        }
        _ => Ok(None),
    }
}

// The name that alone stands behind another.
fn lone_field(selectors: &[Selector]) -> Option<u32>
    ensures { result ≡ field_alone (plain_each_selector selectors.now) }
{
    match selectors {
        [] => None,
        [Selector::Field { name, .. }] => Some(*name),
        _ => None,
    }
}

// A standard procedure that stands alone, by its name or behind its module's.
fn alone<'a>(
    scope: &Scope<'a>,
    named: Named,
    selectors: &[Selector],
) -> Result<Option<Standard>, CheckFault>
    ensures { Answers IsAlone
        (judged_alone scope.now.source.now (world_of scope.now) (object_of (table_of scope.now) (strings_of scope.now) named)
        (plain_each_selector selectors.now))
        result }
{
    if selectors.is_empty() {
        Ok(standard_named(named))
    } else {
        match lone_field(selectors) {
            Some(name) => member_alone(scope, named, name),
            None => Ok(None),
        }
    }
}

// A standard procedure without a list, or what the designator comes to.
fn called_alone<'a>(
    scope: &Scope<'a>,
    alloc: Global,
    only: Option<Standard>,
    tree: &Designator,
) -> Result<Operand, CheckFault>
    ensures { (o : Option Object) → IsAlone only o →
        Answers (Stands scope.now)
        (judged_standard_alone (world_of scope.now) (place scope.now.source.now tree.now.name) o
        (judged_designator scope.now.source.now (world_of scope.now) (plain_designator tree.now)))
        result }
{
    match only {
        Some(s) => standard(scope, alloc, tree.name, s, Vec::new(alloc)),
        None => designator(scope, alloc, tree),
    }
}

// Whether a tree is a call, perhaps with no links behind it.
fn is_call_tree(tree: &Expr) -> bool
    ensures { (t : Table) (texts : List (List ℕ)) → is_result (plain_expr t texts tree.now) ≡ result }
{
    match tree {
        Expr::Call(_) => true,
        Expr::Literal(_) => false,
        Expr::Routine(_) => false,
        Expr::Load(_) => false,
        Expr::Guard(_, _) => false,
        Expr::Unary(_, _) => false,
        Expr::Chain(first, links) => {
            if links.as_slice().is_empty() {
                is_call_tree(first)
            } else {
                false
            }
        }
        Expr::Compare(_, _, _) => false,
        Expr::CompareTexts(_, _, _) => false,
        Expr::In(_, _) => false,
        Expr::IsPointer(_, _) => false,
        Expr::IsParameter(_, _) => false,
        Expr::Byte(_) => false,
        Expr::Length(_) => false,
    }
}

// Whether an operand is a call.
fn is_call<'a>(scope: &Scope<'a>, what: &What) -> bool
    ensures { (w : JudgedWhat) → what_image (table_of scope.now) (texts_of scope.now) what.now ≡ outlined_what (bases_of scope.now) w →
        tests_call w ≡ result }
{
    match what {
        What::Valued(value) => is_call_tree(&value.tree),
        _ => false,
    }
}

// A procedure without a list is called without arguments.
fn called_bare<'a>(
    scope: &Scope<'a>,
    alloc: Global,
    symbol: u32,
    x: Operand,
) -> Result<Operand, CheckFault>
    ensures { (a : Judgement) → Stands scope.now x a →
        Answers (Stands scope.now)
        (judged_bare_call (world_of scope.now) (place scope.now.source.now symbol) a a.shape) result }
{
    match x.of {
        TypeRef::Procedure(signature) => {
            if is_call(scope, &x.what) {
                Ok(x)
            } else {
                called(scope, alloc, symbol, x, signature, Vec::new(alloc))
            }
        }
        _ => Ok(x),
    }
}

// The call of a tree, if it is one.
fn invoked(tree: Expr) -> Option<Stmt>
    ensures { (t : Table) (texts : List (List ℕ)) →
        option_map (plain_statement t texts) result ≡ option_map Invoke (call_by (plain_expr t texts tree)) }
{
    match tree {
        Expr::Call(call) => Some(Stmt::Call(Box::into_inner(call))),
        Expr::Literal(_) => None,
        Expr::Routine(_) => None,
        Expr::Load(_) => None,
        Expr::Guard(_, _) => None,
        Expr::Unary(_, _) => None,
        Expr::Chain(first, links) => {
            if links.as_slice().is_empty() {
                invoked(Box::into_inner(first))
            } else {
                None
            }
        }
        Expr::Compare(_, _, _) => None,
        Expr::CompareTexts(_, _, _) => None,
        Expr::In(_, _) => None,
        Expr::IsPointer(_, _) => None,
        Expr::IsParameter(_, _) => None,
        Expr::Byte(_) => None,
        Expr::Length(_) => None,
    }
}

// The statement that a call without a result is.
fn deed_in<'a>(scope: &Scope<'a>, what: What) -> Option<Stmt>
    ensures { (w : JudgedWhat) → what_image (table_of scope.now) (texts_of scope.now) what ≡ outlined_what (bases_of scope.now) w →
        option_map (plain_statement (table_of scope.now) (texts_of scope.now)) result
        ≡ option_map (outlined_statement (bases_of scope.now)) (deed_by w) }
{
    match what {
        What::Proper(made) => Some(Box::into_inner(made)),
        What::Valued(value) => invoked(value.into_tree()),
        _ => None,
    }
}

// A call as a statement: 31 at the designator unless it is one without a result.
fn deed<'a>(scope: &Scope<'a>, symbol: u32, x: Operand) -> Result<Stmt, CheckFault>
    ensures { (a : Judgement) → Stands scope.now x a →
        Answers (IsStatement scope.now)
        (judged_deed (place scope.now.source.now symbol) a.shape a.what) result }
{
    if x.of.is_nothing() {
        match deed_in(scope, x.what) {
            Some(made) => Ok(made),
            None => Err(scope.source.fault(31, symbol)),
        }
    } else {
        Err(scope.source.fault(31, symbol))
    }
}

// A call as a statement.
fn call_statement<'a>(
    scope: &Scope<'a>,
    alloc: Global,
    tree: &Designator,
) -> Result<Stmt, CheckFault>
    ensures { Answers (IsStatement scope.now)
        (judged_call scope.now.source.now (world_of scope.now) (plain_designator tree.now)) result }
{
    let named = scope.named(tree.name)?;
    let only = alone(scope, named, &tree.selectors)?;
    let x = called_alone(scope, alloc, only, tree)?;
    let y = called_bare(scope, alloc, tree.name, x)?;
    deed(scope, tree.name, y)
}

/// An assignment or a call.
pub fn assign_or_call<'a>(
    scope: &Scope<'a>,
    alloc: Global,
    tree: &AssignOrCall,
) -> Result<Stmt, CheckFault>
    ensures { Answers (IsStatement scope.now)
        (judged_deed_or_call scope.now.source.now (world_of scope.now) (plain_designator tree.now.designator)
        (plain_option plain_assigned tree.now.assigned))
        result }
{
    match &tree.assigned {
        None => call_statement(scope, alloc, &tree.designator),
        Some(assigned) => assignment(scope, alloc, &tree.designator, &assigned.value),
    }
}
