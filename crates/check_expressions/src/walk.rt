//! The walk over expressions and designators.

ghost use Rattle.std.specs.Prelude.{◌≡◌};
ghost use Rattle.ob_syntax.specs.Plain.{plain_expression, plain_simple, plain_each_added, plain_term, plain_each_multiplied, plain_factor, plain_element, plain_selector, plain_each_selector, plain_list, plain_each_expression, plain_designator};
ghost use Rattle.check_operands.specs.symbols.Parts.{plain_each_element, plain_set};
ghost use Rattle.ob_judge.specs.Image.{Expr as Image};
ghost use Rattle.ob_judge.specs.Scopes.{place};
ghost use Rattle.ob_judge.specs.Operands.{Operand as Judgement};
ghost use Rattle.ob_judge.specs.Names.{Stage as JudgedStage};
ghost use Rattle.ob_judge.specs.Calls.{Given as JudgedGiven};
ghost use Rattle.ob_judge.specs.Expressions.{expression as judged_expression, simple as judged_simple, added as judged_added, term as judged_term, multiplied as judged_multiplied, factor as judged_factor, with_elements as judged_elements, with_element as judged_element, selected as judged_selected, select as judged_select, indexed as judged_indexed, indexed_more as judged_indices, designator as judged_designator};
ghost use Rattle.check_types.specs.steps.Answers.{Answers};
ghost use Rattle.check_types.specs.names.Worlds.{world_of};
ghost use Rattle.check_operands.specs.Operands.{Stands};
ghost use Rattle.check_operands.specs.calls.Given.{IsGiven};
ghost use Rattle.check_selectors.specs.parts.Parts.{IsPart};
ghost use Rattle.check_selectors.specs.Stages.{IsStage, IsBegun};
ghost use Rattle.check_selectors.specs.Behind.{index_behind, parens_behind_any};
ghost use Rattle.check_expressions.specs.Steps.{IsValue, AreGivenIn, compared_with, added_one as judged_one_added, multiplied_one as judged_one_multiplied, number_in, indexed_one as judged_index, given_by, arguments_from};

use crate::links::{with_elements, with_link};
use crate::steps::{
    as_factor, as_value, char_literal, guard_name, int_literal, joined_factors, joined_terms,
};
use check_operands::Operand;
use check_operands::calls::Given;
use check_operands::operators::{
    inverted, literal, related, set_element, signed, text_literal, value,
};
use check_operands::symbols::{bare_simple, expression_first};
use check_operands::trees::Value;
use check_selectors::parts::{Part, element};
use check_selectors::{
    Begun, Stage, begin, called_last, element_of, finished, guarded_by, select_arrow,
    select_empty_parens, select_field, standard_last, standard_of, type_test,
};
use check_types::TypeRef;
use check_types::names::{Basic, Scope};
use check_types::steps::CheckFault;
use ob_syntax::expressions::{
    Added, Compared, Designator, Element, Expression, Factor, List, Multiplied, NextElement,
    NextExpression, Relation, Selector, Set, Simple, Term,
};
use ob_types::{Expr, Link};
use std::alloc::Global;

/// An expression.
#[cycle(walk)]
pub fn expression<'a>(
    scope: &Scope<'a>,
    alloc: Global,
    tree: &Expression,
) -> Result<Operand, CheckFault>
    ensures { Answers (Stands scope.now)
        (judged_expression scope.now.source.now (world_of scope.now) (plain_expression tree.now)) result }
{
    match &tree.compared {
        None => simple(scope, alloc, &tree.left),
        Some(other) => {
            let x = simple(scope, alloc, &tree.left)?;
            compared(scope, alloc, x, other)
        }
    }
}

/// A relation, whose left side has been walked. IS wants the name of a type, every other relation an expression.
#[cycle(walk)]
#[inline(never)]
fn compared<'a>(
    scope: &Scope<'a>,
    alloc: Global,
    x: Operand,
    tree: &Compared,
) -> Result<Operand, CheckFault>
    ensures { (a : Judgement) → Stands scope.now x a →
        Answers (Stands scope.now) (compared_with scope.now.source.now (world_of scope.now) a tree.now) result }
{
    match &tree.relation {
        Relation::Is(symbol) => match bare_simple(&tree.right) {
            Some(bare) => type_test(scope, alloc, *symbol, x, bare.name, bare.member),
            None => {
                simple(scope, alloc, &tree.right)?;
                Err(scope.source.fault(31, *symbol))
            }
        },
        relation => {
            let y = simple(scope, alloc, &tree.right)?;
            related(scope, alloc, relation, x, y)
        }
    }
}

/// A sum. A term alone is what it comes to.
#[cycle(walk)]
pub fn simple<'a>(scope: &Scope<'a>, alloc: Global, tree: &Simple) -> Result<Operand, CheckFault>
    ensures { Answers (Stands scope.now)
        (judged_simple scope.now.source.now (world_of scope.now) (plain_simple tree.now)) result }
{
    if tree.sign.is_none() && tree.more.as_slice().is_empty() {
        return term(scope, alloc, &tree.first);
    }
    let x = term(scope, alloc, &tree.first)?;
    let y = signed(scope, alloc, &tree.sign, x)?;
    added(scope, alloc, y, &tree.more)
}

/// Further terms.
#[cycle(walk)]
#[inline(never)]
fn added<'a>(
    scope: &Scope<'a>,
    alloc: Global,
    first: Operand,
    more: &[Added],
) -> Result<Operand, CheckFault>
    ensures { (a : Judgement) → Stands scope.now first a →
        Answers (Stands scope.now)
        (judged_added scope.now.source.now (world_of scope.now) a (plain_each_added more.now)) result }
{
    let mut x = first;
    for next in more {
        x = added_one(scope, alloc, x, next)?;
    }
    Ok(x)
}

/// One more term.
#[cycle(walk)]
fn added_one<'a>(
    scope: &Scope<'a>,
    alloc: Global,
    x: Operand,
    tree: &Added,
) -> Result<Operand, CheckFault>
    ensures { (a : Judgement) → Stands scope.now x a →
        Answers (Stands scope.now) (judged_one_added scope.now.source.now (world_of scope.now) a tree.now) result }
{
    let y = term(scope, alloc, &tree.term)?;
    joined_terms(scope, alloc, &tree.operator, x, y)
}

/// A product. A factor alone is what it comes to.
#[cycle(walk)]
fn term<'a>(scope: &Scope<'a>, alloc: Global, tree: &Term) -> Result<Operand, CheckFault>
    ensures { Answers (Stands scope.now)
        (judged_term scope.now.source.now (world_of scope.now) (plain_term tree.now)) result }
{
    if tree.more.as_slice().is_empty() {
        return factor(scope, alloc, &tree.first);
    }
    let x = factor(scope, alloc, &tree.first)?;
    multiplied(scope, alloc, x, &tree.more)
}

/// Further factors.
#[cycle(walk)]
#[inline(never)]
fn multiplied<'a>(
    scope: &Scope<'a>,
    alloc: Global,
    first: Operand,
    more: &[Multiplied],
) -> Result<Operand, CheckFault>
    ensures { (a : Judgement) → Stands scope.now first a →
        Answers (Stands scope.now)
        (judged_multiplied scope.now.source.now (world_of scope.now) a (plain_each_multiplied more.now)) result }
{
    let mut x = first;
    for next in more {
        x = multiplied_one(scope, alloc, x, next)?;
    }
    Ok(x)
}

/// One more factor.
#[cycle(walk)]
fn multiplied_one<'a>(
    scope: &Scope<'a>,
    alloc: Global,
    x: Operand,
    tree: &Multiplied,
) -> Result<Operand, CheckFault>
    ensures { (a : Judgement) → Stands scope.now x a →
        Answers (Stands scope.now) (judged_one_multiplied scope.now.source.now (world_of scope.now) a tree.now) result }
{
    let y = factor(scope, alloc, &tree.factor)?;
    joined_factors(scope, alloc, &tree.operator, x, y)
}

/// A factor.
#[cycle(walk)]
fn factor<'a>(scope: &Scope<'a>, alloc: Global, tree: &Factor) -> Result<Operand, CheckFault>
    ensures { Answers (Stands scope.now)
        (judged_factor scope.now.source.now (world_of scope.now) (plain_factor tree.now)) result }
{
    match tree {
        Factor::Int(symbol) => Ok(int_literal(scope, *symbol)),
        Factor::Text(symbol) => Ok(text_literal(scope, *symbol)),
        Factor::Char(symbol) => Ok(char_literal(scope, *symbol)),
        Factor::Nil(_) => Ok(literal(Basic::Nil, 0)),
        Factor::True(_) => Ok(literal(Basic::Bool, 1)),
        Factor::False(_) => Ok(literal(Basic::Bool, 0)),
        Factor::Set(elements) => set(scope, alloc, elements),
        Factor::Designator(inner) => {
            let x = designator(scope, alloc, inner)?;
            as_factor(scope, inner.name, x)
        }
        Factor::Paren {
            expression: inner,
            ..
        } => {
            let x = expression(scope, alloc, inner)?;
            Ok(as_value(x))
        }
        Factor::Not {
            tilde,
            factor: inner,
        } => {
            let x = factor(scope, alloc, inner)?;
            inverted(scope, alloc, *tilde, x)
        }
    }
}

/// A set.
#[cycle(walk)]
#[inline(never)]
fn set<'a>(scope: &Scope<'a>, alloc: Global, tree: &Set) -> Result<Operand, CheckFault>
    ensures { Answers (Stands scope.now)
        (judged_factor scope.now.source.now (world_of scope.now) (plain_set tree.now)) result }
{
    match &tree.elements {
        None => Ok(literal(Basic::Set, 0)),
        Some(elements) => {
            let none = Value::new(Expr::Literal(0));
            let first = element_in(scope, alloc, none, &elements.first)?;
            let all = elements_in(scope, alloc, first, &elements.more)?;
            Ok(value(TypeRef::Set, all.into_tree()))
        }
    }
}

/// A set and further elements.
#[cycle(walk)]
fn elements_in<'a>(
    scope: &Scope<'a>,
    alloc: Global,
    first: Value,
    more: &[NextElement],
) -> Result<Value, CheckFault>
    ensures { (a : Image) → IsValue scope.now first a →
        Answers (IsValue scope.now)
        (judged_elements scope.now.source.now (world_of scope.now) a (plain_each_element more.now)) result }
{
    let mut set = first;
    for next in more {
        set = element_in(scope, alloc, set, &next.element)?;
    }
    Ok(set)
}

/// A set and one more element, or all from one to another.
#[cycle(walk)]
fn element_in<'a>(
    scope: &Scope<'a>,
    alloc: Global,
    set: Value,
    tree: &Element,
) -> Result<Value, CheckFault>
    ensures { (a : Image) → IsValue scope.now set a →
        Answers (IsValue scope.now) (judged_element scope.now.source.now (world_of scope.now) a (plain_element tree.now)) result }
{
    let low = number(scope, alloc, &tree.low)?;
    match &tree.high {
        None => with_link(alloc, set, Link::Element(low.into_tree())),
        Some(range) => {
            let high = number(scope, alloc, &range.expression)?;
            with_elements(alloc, set, low, high)
        }
    }
}

/// A number that may be an element.
#[cycle(walk)]
fn number<'a>(scope: &Scope<'a>, alloc: Global, tree: &Expression) -> Result<Value, CheckFault>
    ensures { Answers (IsValue scope.now) (number_in scope.now.source.now (world_of scope.now) (plain_expression tree.now)) result }
{
    let x = expression(scope, alloc, tree)?;
    let tree = set_element(scope, expression_first(tree), x)?;
    Ok(Value::new(tree))
}

/// A designator.
#[cycle(walk)]
pub fn designator<'a>(
    scope: &Scope<'a>,
    alloc: Global,
    tree: &Designator,
) -> Result<Operand, CheckFault>
    ensures { Answers (Stands scope.now)
        (judged_designator scope.now.source.now (world_of scope.now) (plain_designator tree.now)) result }
{
    let named = scope.named(tree.name)?;
    if tree.selectors.as_slice().is_empty() {
        return finished(scope, alloc, tree.name, Stage::Whole(named));
    }
    selected(
        scope,
        alloc,
        tree.name,
        Stage::Whole(named),
        &tree.selectors,
    )
}

/// What selectors lead to, one after the other.
#[cycle(walk)]
#[inline(never)]
fn selected<'a>(
    scope: &Scope<'a>,
    alloc: Global,
    symbol: u32,
    first: Stage,
    selectors: &[Selector],
) -> Result<Operand, CheckFault>
    ensures { (a : JudgedStage) → IsStage scope.now first a →
        Answers (Stands scope.now)
        (judged_selected scope.now.source.now (world_of scope.now) (place scope.now.source.now symbol) a (plain_each_selector selectors.now))
        result }
{
    let mut stage = first;
    for next in selectors {
        stage = select(scope, alloc, symbol, stage, next)?;
    }
    finished(scope, alloc, symbol, stage)
}

/// What a selector leads to.
#[cycle(walk)]
#[inline(never)]
fn select<'a>(
    scope: &Scope<'a>,
    alloc: Global,
    symbol: u32,
    stage: Stage,
    selector: &Selector,
) -> Result<Stage, CheckFault>
    ensures { (a : JudgedStage) → IsStage scope.now stage a →
        Answers (IsStage scope.now)
        (judged_select scope.now.source.now (world_of scope.now) (place scope.now.source.now symbol) a (plain_selector selector.now))
        result }
{
    match selector {
        Selector::Field { name, .. } => select_field(scope, alloc, symbol, stage, *name),
        Selector::Index { list, .. } => index(scope, alloc, symbol, stage, list),
        Selector::Arrow(_) => select_arrow(scope, alloc, symbol, stage),
        Selector::Parens { list, .. } => match list {
            None => select_empty_parens(scope, alloc, symbol, stage),
            Some(inner) => parens(scope, alloc, symbol, stage, inner),
        },
    }
}

/// Indices, one after the other.
#[cycle(walk)]
fn index<'a>(
    scope: &Scope<'a>,
    alloc: Global,
    symbol: u32,
    stage: Stage,
    list: &List,
) -> Result<Stage, CheckFault>
    ensures { (a : JudgedStage) → IsStage scope.now stage a →
        Answers (IsStage scope.now)
        (index_behind scope.now.source.now (world_of scope.now) (place scope.now.source.now symbol) (plain_list list.now) a)
        result }
{
    let x = begin(scope, alloc, symbol, stage)?;
    let i = expression(scope, alloc, &list.first)?;
    let first = element_of(scope, alloc, symbol, expression_first(&list.first), x, i)?;
    let last = indexed(scope, alloc, symbol, first, &list.more)?;
    Ok(Stage::Partly(last))
}

/// Further indices.
#[cycle(walk)]
fn indexed<'a>(
    scope: &Scope<'a>,
    alloc: Global,
    symbol: u32,
    first: Part,
    more: &[NextExpression],
) -> Result<Part, CheckFault>
    ensures { (a : Judgement) → IsPart scope.now first a →
        Answers (IsPart scope.now)
        (judged_indices scope.now.source.now (world_of scope.now) (place scope.now.source.now symbol) a (plain_each_expression more.now))
        result }
{
    let mut x = first;
    for next in more {
        x = indexed_one(scope, alloc, symbol, x, &next.expression)?;
    }
    Ok(x)
}

/// One more index.
#[cycle(walk)]
fn indexed_one<'a>(
    scope: &Scope<'a>,
    alloc: Global,
    symbol: u32,
    x: Part,
    tree: &Expression,
) -> Result<Part, CheckFault>
    ensures { (a : Judgement) → IsPart scope.now x a →
        Answers (IsPart scope.now)
        (judged_index scope.now.source.now (world_of scope.now) (place scope.now.source.now symbol) a (plain_expression tree.now))
        result }
{
    let i = expression(scope, alloc, tree)?;
    element(scope, alloc, symbol, expression_first(tree), x, i)
}

/// A list in parentheses: arguments, or a guard.
#[cycle(walk)]
fn parens<'a>(
    scope: &Scope<'a>,
    alloc: Global,
    symbol: u32,
    stage: Stage,
    list: &List,
) -> Result<Stage, CheckFault>
    ensures { (a : JudgedStage) → IsStage scope.now stage a →
        Answers (IsStage scope.now)
        (parens_behind_any scope.now.source.now (world_of scope.now) (place scope.now.source.now symbol) (plain_list list.now) a)
        result }
{
    match standard_of(scope, &stage) {
        Some(s) => {
            let first = given(scope, alloc, &list.first)?;
            let all = arguments(scope, alloc, first, &list.more)?;
            standard_last(scope, alloc, symbol, s, all)
        }
        None => {
            let x = begin(scope, alloc, symbol, stage)?;
            match guard_name(scope, &x, list) {
                Some(bare) => guarded_by(scope, alloc, symbol, x, bare.name, bare.member),
                None => {
                    let first = given(scope, alloc, &list.first)?;
                    let all = arguments(scope, alloc, first, &list.more)?;
                    called_last(scope, alloc, symbol, x, all)
                }
            }
        }
    }
}

/// Arguments, the first of which has been walked.
#[cycle(walk)]
fn arguments<'a>(
    scope: &Scope<'a>,
    alloc: Global,
    first: Given,
    more: &[NextExpression],
) -> Result<Vec<Given>, CheckFault>
    ensures { (a : JudgedGiven) → IsGiven scope.now first a →
        Answers (AreGivenIn scope.now) (arguments_from scope.now.source.now (world_of scope.now) a (plain_each_expression more.now)) result }
{
    let mut all = Vec::with_capacity(alloc, 1 + more.len())?;
    all.push(first)?;
    for next in more {
        let x = given(scope, alloc, &next.expression)?;
        all.push(x)?;
    }
    Ok(all)
}

/// An argument.
#[cycle(walk)]
fn given<'a>(scope: &Scope<'a>, alloc: Global, tree: &Expression) -> Result<Given, CheckFault>
    ensures { Answers (IsGiven scope.now) (given_by scope.now.source.now (world_of scope.now) (plain_expression tree.now)) result }
{
    let operand = expression(scope, alloc, tree)?;
    Ok(Given {
        symbol: expression_first(tree),
        operand,
    })
}
