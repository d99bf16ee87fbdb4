//! The terminals of expressions and designators.

ghost use Rattle.std.specs.Prelude.{◌≡◌, [], ◌∷◌, OnOk};
ghost use Rattle.ob_syntax.specs.Leaves.{boxed, optional, each, indices};
ghost use Rattle.ob_tree.specs.Adds.{Adds};
ghost use Rattle.ob_syntax.specs.ExpressionText.{designator_text, selector_text, list_text, next_expression_text, expression_text, compared_text, relation_text, simple_text, sign_text, added_text, add_operator_text, term_text, multiplied_text, mul_operator_text, factor_text, set_text, elements_text, next_element_text, element_text, element_high_text};

use super::put;
use ob_syntax::expressions::{
    AddOperator, Added, Compared, Designator, Element, ElementHigh, Elements, Expression, Factor,
    List, MulOperator, Multiplied, NextElement, NextExpression, Relation, Selector, Set, Sign,
    Simple, Term,
};
use outside::Memory;

#[cycle(adds)]
pub fn add_designator(out: &mut Vec<u32>, tree: &Designator) -> Result<(), Memory>
    ensures { OnOk result (Adds out.old.items out.new.items (designator_text tree.now)) }
{
    put(out, tree.name)?;
    add_each_selector(out, &tree.selectors)?;
    Ok(())
}

#[cycle(adds)]
fn add_selector(out: &mut Vec<u32>, tree: &Selector) -> Result<(), Memory>
    ensures { OnOk result (Adds out.old.items out.new.items (selector_text tree.now)) }
{
    match tree {
        Selector::Field { period, name } => {
            put(out, *period)?;
            put(out, *name)?;
            Ok(())
        }
        Selector::Index {
            left_bracket,
            list,
            right_bracket,
        } => {
            put(out, *left_bracket)?;
            add_list(out, list)?;
            put(out, *right_bracket)?;
            Ok(())
        }
        Selector::Arrow(index) => {
            put(out, *index)?;
            Ok(())
        }
        Selector::Parens {
            left_paren,
            list,
            right_paren,
        } => {
            put(out, *left_paren)?;
            add_arguments(out, list)?;
            put(out, *right_paren)?;
            Ok(())
        }
    }
}

#[cycle(adds)]
fn add_each_selector(out: &mut Vec<u32>, trees: &[Selector]) -> Result<(), Memory>
    ensures { OnOk result (Adds out.old.items out.new.items (each selector_text trees.now)) }
{
    for tree in trees {
        add_selector(out, tree)?;
    }
    Ok(())
}

#[cycle(adds)]
fn add_list(out: &mut Vec<u32>, tree: &List) -> Result<(), Memory>
    ensures { OnOk result (Adds out.old.items out.new.items (list_text tree.now)) }
{
    add_expression(out, &tree.first)?;
    add_each_next_expression(out, &tree.more)?;
    Ok(())
}

#[cycle(adds)]
fn add_arguments(out: &mut Vec<u32>, tree: &Option<List>) -> Result<(), Memory>
    ensures { OnOk result (Adds out.old.items out.new.items (optional list_text tree.now)) }
{
    match tree {
        None => Ok(()),
        Some(tree) => {
            add_list(out, tree)?;
            Ok(())
        }
    }
}

#[cycle(adds)]
fn add_next_expression(out: &mut Vec<u32>, tree: &NextExpression) -> Result<(), Memory>
    ensures { OnOk result (Adds out.old.items out.new.items (next_expression_text tree.now)) }
{
    put(out, tree.comma)?;
    add_expression(out, &tree.expression)?;
    Ok(())
}

#[cycle(adds)]
pub fn add_each_next_expression(out: &mut Vec<u32>, trees: &[NextExpression]) -> Result<(), Memory>
    ensures { OnOk result (Adds out.old.items out.new.items (each next_expression_text trees.now)) }
{
    for tree in trees {
        add_next_expression(out, tree)?;
    }
    Ok(())
}

#[cycle(adds)]
pub fn add_expression(out: &mut Vec<u32>, tree: &Expression) -> Result<(), Memory>
    ensures { OnOk result (Adds out.old.items out.new.items (expression_text tree.now)) }
{
    add_simple(out, &tree.left)?;
    add_maybe_compared(out, &tree.compared)?;
    Ok(())
}

#[cycle(adds)]
fn add_maybe_compared(out: &mut Vec<u32>, tree: &Option<Box<Compared>>) -> Result<(), Memory>
    ensures { OnOk result (Adds out.old.items out.new.items (optional (boxed compared_text) tree.now)) }
{
    match tree {
        None => Ok(()),
        Some(tree) => {
            add_compared(out, tree)?;
            Ok(())
        }
    }
}

#[cycle(adds)]
fn add_compared(out: &mut Vec<u32>, tree: &Compared) -> Result<(), Memory>
    ensures { OnOk result (Adds out.old.items out.new.items (compared_text tree.now)) }
{
    put(out, relation_index(&tree.relation))?;
    add_simple(out, &tree.right)?;
    Ok(())
}

fn relation_index(tree: &Relation) -> u32
    ensures { indices (relation_text tree.now) ≡ result ∷ [] }
{
    match tree {
        Relation::Equal(index)
        | Relation::NotEqual(index)
        | Relation::Less(index)
        | Relation::LessEqual(index)
        | Relation::Greater(index)
        | Relation::GreaterEqual(index)
        | Relation::In(index)
        | Relation::Is(index) => *index,
    }
}

#[cycle(adds)]
fn add_simple(out: &mut Vec<u32>, tree: &Simple) -> Result<(), Memory>
    ensures { OnOk result (Adds out.old.items out.new.items (simple_text tree.now)) }
{
    add_sign(out, &tree.sign)?;
    add_term(out, &tree.first)?;
    add_each_added(out, &tree.more)?;
    Ok(())
}

fn sign_index(tree: &Sign) -> u32
    ensures { indices (sign_text tree.now) ≡ result ∷ [] }
{
    match tree {
        Sign::Plus(index) | Sign::Minus(index) => *index,
    }
}

fn add_sign(out: &mut Vec<u32>, tree: &Option<Sign>) -> Result<(), Memory>
    ensures { OnOk result (Adds out.old.items out.new.items (optional sign_text tree.now)) }
{
    match tree {
        None => Ok(()),
        Some(tree) => {
            put(out, sign_index(tree))?;
            Ok(())
        }
    }
}

#[cycle(adds)]
fn add_added(out: &mut Vec<u32>, tree: &Added) -> Result<(), Memory>
    ensures { OnOk result (Adds out.old.items out.new.items (added_text tree.now)) }
{
    put(out, add_operator_index(&tree.operator))?;
    add_term(out, &tree.term)?;
    Ok(())
}

#[cycle(adds)]
fn add_each_added(out: &mut Vec<u32>, trees: &[Added]) -> Result<(), Memory>
    ensures { OnOk result (Adds out.old.items out.new.items (each added_text trees.now)) }
{
    for tree in trees {
        add_added(out, tree)?;
    }
    Ok(())
}

fn add_operator_index(tree: &AddOperator) -> u32
    ensures { indices (add_operator_text tree.now) ≡ result ∷ [] }
{
    match tree {
        AddOperator::Plus(index) | AddOperator::Minus(index) | AddOperator::Or(index) => *index,
    }
}

#[cycle(adds)]
fn add_term(out: &mut Vec<u32>, tree: &Term) -> Result<(), Memory>
    ensures { OnOk result (Adds out.old.items out.new.items (term_text tree.now)) }
{
    add_factor(out, &tree.first)?;
    add_each_multiplied(out, &tree.more)?;
    Ok(())
}

#[cycle(adds)]
fn add_multiplied(out: &mut Vec<u32>, tree: &Multiplied) -> Result<(), Memory>
    ensures { OnOk result (Adds out.old.items out.new.items (multiplied_text tree.now)) }
{
    put(out, mul_operator_index(&tree.operator))?;
    add_factor(out, &tree.factor)?;
    Ok(())
}

#[cycle(adds)]
fn add_each_multiplied(out: &mut Vec<u32>, trees: &[Multiplied]) -> Result<(), Memory>
    ensures { OnOk result (Adds out.old.items out.new.items (each multiplied_text trees.now)) }
{
    for tree in trees {
        add_multiplied(out, tree)?;
    }
    Ok(())
}

fn mul_operator_index(tree: &MulOperator) -> u32
    ensures { indices (mul_operator_text tree.now) ≡ result ∷ [] }
{
    match tree {
        MulOperator::Times(index)
        | MulOperator::Slash(index)
        | MulOperator::Div(index)
        | MulOperator::Mod(index)
        | MulOperator::And(index) => *index,
    }
}

#[cycle(adds)]
fn add_factor(out: &mut Vec<u32>, tree: &Factor) -> Result<(), Memory>
    ensures { OnOk result (Adds out.old.items out.new.items (factor_text tree.now)) }
{
    match tree {
        Factor::Int(index) => {
            put(out, *index)?;
            Ok(())
        }
        Factor::Text(index) => {
            put(out, *index)?;
            Ok(())
        }
        Factor::Char(index) => {
            put(out, *index)?;
            Ok(())
        }
        Factor::Nil(index) => {
            put(out, *index)?;
            Ok(())
        }
        Factor::True(index) => {
            put(out, *index)?;
            Ok(())
        }
        Factor::False(index) => {
            put(out, *index)?;
            Ok(())
        }
        Factor::Set(tree) => {
            add_set(out, tree)?;
            Ok(())
        }
        Factor::Designator(tree) => {
            add_designator(out, tree)?;
            Ok(())
        }
        Factor::Paren {
            left_paren,
            expression,
            right_paren,
        } => {
            put(out, *left_paren)?;
            add_expression(out, expression)?;
            put(out, *right_paren)?;
            Ok(())
        }
        Factor::Not { tilde, factor } => {
            put(out, *tilde)?;
            add_factor(out, factor)?;
            Ok(())
        }
    }
}

#[cycle(adds)]
fn add_set(out: &mut Vec<u32>, tree: &Set) -> Result<(), Memory>
    ensures { OnOk result (Adds out.old.items out.new.items (set_text tree.now)) }
{
    put(out, tree.left_brace)?;
    add_elements(out, &tree.elements)?;
    put(out, tree.right_brace)?;
    Ok(())
}

#[cycle(adds)]
fn add_elements(out: &mut Vec<u32>, tree: &Option<Elements>) -> Result<(), Memory>
    ensures { OnOk result (Adds out.old.items out.new.items (optional elements_text tree.now)) }
{
    match tree {
        None => Ok(()),
        Some(tree) => {
            add_element(out, &tree.first)?;
            add_each_next_element(out, &tree.more)?;
            Ok(())
        }
    }
}

#[cycle(adds)]
fn add_next_element(out: &mut Vec<u32>, tree: &NextElement) -> Result<(), Memory>
    ensures { OnOk result (Adds out.old.items out.new.items (next_element_text tree.now)) }
{
    put(out, tree.comma)?;
    add_element(out, &tree.element)?;
    Ok(())
}

#[cycle(adds)]
fn add_each_next_element(out: &mut Vec<u32>, trees: &[NextElement]) -> Result<(), Memory>
    ensures { OnOk result (Adds out.old.items out.new.items (each next_element_text trees.now)) }
{
    for tree in trees {
        add_next_element(out, tree)?;
    }
    Ok(())
}

#[cycle(adds)]
fn add_element(out: &mut Vec<u32>, tree: &Element) -> Result<(), Memory>
    ensures { OnOk result (Adds out.old.items out.new.items (element_text tree.now)) }
{
    add_expression(out, &tree.low)?;
    add_element_high(out, &tree.high)?;
    Ok(())
}

#[cycle(adds)]
fn add_element_high(out: &mut Vec<u32>, tree: &Option<ElementHigh>) -> Result<(), Memory>
    ensures { OnOk result (Adds out.old.items out.new.items (optional element_high_text tree.now)) }
{
    match tree {
        None => Ok(()),
        Some(tree) => {
            put(out, tree.dots)?;
            add_expression(out, &tree.expression)?;
            Ok(())
        }
    }
}
