//! Relations judged.

ghost use Rattle.std.specs.Prelude.{◌≡◌, ℕ, List};
ghost use Rattle.ob_judge.specs.Judged.{Keeps};
ghost use Rattle.ob_judge.specs.Shapes.{Boolean};
ghost use Rattle.ob_judge.specs.Image.{Compare, CompareTexts, In, Linked};
ghost use Rattle.ob_judge.specs.Scopes.{place};
ghost use Rattle.ob_judge.specs.Operands.{Operand as Judgement, value as value_of, form as form_of, designator_of};
ghost use Rattle.ob_judge.specs.Parts.{compared as judged_relation, comparison as comparison_of, is_in as judged_in, related as judged_related, set_element as judged_element};
ghost use Rattle.judged_tree.specs.Plain.{plain_expr, plain_link};
ghost use Rattle.check_types.specs.steps.Answers.{Answers};
ghost use Rattle.check_types.specs.names.Worlds.{world_of};
ghost use Rattle.check_operands.specs.Operands.{Stands, JudgesBoth};
ghost use Rattle.check_operands.specs.operators.Judged.{inclusion_link_of, IsTree};
ghost use Rattle.ob_types.specs.Table.{Table};

use crate::operators::literals::value;
use crate::trees::{compare, compare_texts, linked};
use crate::{Operand, designator, form};
use check_types::TypeRef;
use check_types::names::Scope;
use check_types::steps::CheckFault;
use ob_syntax::expressions::Relation as Written;
use ob_types::{Binary, Expr, Link, Relation};
use std::alloc::Global;

// Two texts compared.
fn of_texts<'a>(
    scope: &Scope<'a>,
    alloc: Global,
    relation: Relation,
    x: Operand,
    y: Operand,
) -> Result<Operand, CheckFault>
    ensures { JudgesBoth scope.now x y (λ a b. Keeps (value_of Boolean (CompareTexts relation (designator_of a) (designator_of b)))) result }
{
    let left = designator(scope, x);
    let right = designator(scope, y);
    let tree = compare_texts(alloc, relation, left, right)?;
    Ok(value(TypeRef::Bool, tree))
}

// Two scalars compared.
fn of_scalars<'a>(
    scope: &Scope<'a>,
    alloc: Global,
    relation: Relation,
    x: Operand,
    y: Operand,
) -> Result<Operand, CheckFault>
    ensures { JudgesBoth scope.now x y (λ a b. Keeps (value_of Boolean (Compare relation (form_of a) (form_of b)))) result }
{
    let left = form(scope, x);
    let right = form(scope, y);
    let tree = compare(alloc, relation, left, right)?;
    Ok(value(TypeRef::Bool, tree))
}

// `>=` of sets, or `<=`.
fn inclusion_link(relation: Relation, right: Expr) -> Link
    ensures { (t : Table) (texts : List (List ℕ)) → plain_link t texts result ≡ inclusion_link_of relation (plain_expr t texts right) }
{
    match relation {
        Relation::GreaterEqual => Link::Operate(Binary::Superset, right),
        _ => Link::Operate(Binary::Subset, right),
    }
}

// Two sets compared.
fn of_sets<'a>(
    scope: &Scope<'a>,
    alloc: Global,
    relation: Relation,
    x: Operand,
    y: Operand,
) -> Result<Operand, CheckFault>
    ensures { JudgesBoth scope.now x y (λ a b. Keeps (value_of Boolean (Linked (form_of a) (inclusion_link_of relation (form_of b))))) result }
{
    let left = form(scope, x);
    let right = form(scope, y);
    let tree = linked(alloc, left, inclusion_link(relation, right))?;
    Ok(value(TypeRef::Bool, tree))
}

// What a relation makes of operands that it takes.
fn comparison<'a>(
    scope: &Scope<'a>,
    alloc: Global,
    relation: Relation,
    x: Operand,
    y: Operand,
) -> Result<Operand, CheckFault>
    ensures { JudgesBoth scope.now x y (λ a b. Keeps (value_of Boolean (comparison_of relation a b))) result }
{
    if scope.types.are_texts(x.of, y.of) {
        of_texts(scope, alloc, relation, x, y)
    } else if scope.types.are_included(relation, x.of, y.of) {
        of_sets(scope, alloc, relation, x, y)
    } else {
        of_scalars(scope, alloc, relation, x, y)
    }
}

/// A relation: 31 where it has no such operands; 32 where a constant expression compares texts.
pub fn compared<'a>(
    scope: &Scope<'a>,
    alloc: Global,
    relation: Relation,
    symbol: u32,
    x: Operand,
    y: Operand,
) -> Result<Operand, CheckFault>
    ensures { JudgesBoth scope.now x y (judged_relation scope.now.source.now (world_of scope.now) relation (place scope.now.source.now symbol)) result }
{
    if !scope.types.may_compare(relation, x.of, y.of) {
        Err(scope.source.fault(31, symbol))
    } else if scope.constant && scope.types.are_texts(x.of, y.of) {
        Err(scope.source.fault(32, symbol))
    } else {
        comparison(scope, alloc, relation, x, y)
    }
}

// An element of a set.
fn membership<'a>(
    scope: &Scope<'a>,
    alloc: Global,
    x: Operand,
    set: Operand,
) -> Result<Operand, CheckFault>
    ensures { JudgesBoth scope.now x set (λ a b. Keeps (value_of Boolean (In (form_of a) (form_of b)))) result }
{
    let left = form(scope, x);
    let right = form(scope, set);
    let tree = crate::trees::is_in(alloc, left, right)?;
    Ok(value(TypeRef::Bool, tree))
}

/// IN: 31 unless a number and a set stand round it.
pub fn is_in<'a>(
    scope: &Scope<'a>,
    alloc: Global,
    symbol: u32,
    x: Operand,
    set: Operand,
) -> Result<Operand, CheckFault>
    ensures { JudgesBoth scope.now x set (judged_in (place scope.now.source.now symbol)) result }
{
    if x.of.is_number() && set.of.is_set() {
        membership(scope, alloc, x, set)
    } else {
        Err(scope.source.fault(31, symbol))
    }
}

/// A relation between two operands; IS has none here.
pub fn related<'a>(
    scope: &Scope<'a>,
    alloc: Global,
    relation: &Written,
    x: Operand,
    y: Operand,
) -> Result<Operand, CheckFault>
    ensures { JudgesBoth scope.now x y (judged_related scope.now.source.now (world_of scope.now) relation.now) result }
{
    match relation {
        Written::Equal(i) => compared(scope, alloc, Relation::Equal, *i, x, y),
        Written::NotEqual(i) => compared(scope, alloc, Relation::Unequal, *i, x, y),
        Written::Less(i) => compared(scope, alloc, Relation::Less, *i, x, y),
        Written::LessEqual(i) => compared(scope, alloc, Relation::LessEqual, *i, x, y),
        Written::Greater(i) => compared(scope, alloc, Relation::Greater, *i, x, y),
        Written::GreaterEqual(i) => compared(scope, alloc, Relation::GreaterEqual, *i, x, y),
        Written::In(i) => is_in(scope, alloc, *i, x, y),
        Written::Is(i) => Err(scope.source.fault(31, *i)),
    }
}

/// An element of a set: 31 where it is no number.
pub fn set_element<'a>(scope: &Scope<'a>, symbol: u32, x: Operand) -> Result<Expr, CheckFault>
    ensures { (a : Judgement) → Stands scope.now x a
        → Answers (IsTree scope.now) (judged_element
        (place scope.now.source.now symbol) a) result }
{
    if x.of.is_number() {
        Ok(form(scope, x))
    } else {
        Err(scope.source.fault(31, symbol))
    }
}
