//! Expressions that are one qualident.

ghost use Rattle.std.specs.Prelude.{◌≡◌, option_map, None};
ghost use Rattle.ob_syntax.specs.Plain.{plain_expression, plain_simple, plain_term, plain_factor, plain_list, plain_each_selector, plain_each_added};
ghost use Rattle.ob_judge.specs.Symbols.{bare_factor as bare_in_factor, bare_term as bare_in_term, bare_simple as bare_in_simple, bare as bare_in, bare_list as bare_in_list};
ghost use Rattle.ob_syntax.specs.Syntax.{Designated, simple};
ghost use Rattle.ob_syntax.specs.declared.expressions.Simple.{out-Simple};
ghost use Rattle.check_operands.specs.symbols.Parts.{name_and_member};

use ob_syntax::expressions::{Designator, Expression, Factor, List, Selector, Simple, Term};

/// A name, and its member: by their symbols.
#[derive(Clone, Copy)]
pub struct BareName {
    pub name: u32,
    pub member: Option<u32>,
}

// A designator.
fn bare_designator(tree: &Designator) -> Option<BareName>
    ensures { option_map name_and_member result
        ≡ bare_in_factor (Designated tree.now.name (plain_each_selector tree.now.selectors.items)) }
{
    match tree.selectors.as_slice() {
        [] => Some(BareName {
            name: tree.name,
            member: None,
        }),
        [Selector::Field { name, .. }] => Some(BareName {
            name: tree.name,
            member: Some(*name),
        }),
        _ => None,
    }
}

// A factor.
fn bare_factor(tree: &Factor) -> Option<BareName>
    ensures { option_map name_and_member result ≡ bare_in_factor (plain_factor tree.now) }
{
    match tree {
        Factor::Designator(designator) => bare_designator(designator),
        _ => None,
    }
}

// A term.
fn bare_term(tree: &Term) -> Option<BareName>
    ensures { option_map name_and_member result ≡ bare_in_term (plain_term tree.now) }
{
    if tree.more.as_slice().is_empty() {
        bare_factor(&tree.first)
    } else {
        None
    }
}

// A sum without a sign.
fn unsigned(tree: &Simple) -> Option<BareName>
    ensures { option_map name_and_member result
        ≡ bare_in_simple (simple None (plain_term (out-Simple tree.now).first) (plain_each_added (out-Simple tree.now).more.items)) }
{
    if tree.more.as_slice().is_empty() {
        bare_term(&tree.first)
    } else {
        None
    }
}

/// A simple expression, if it is one qualident.
pub fn bare_simple(tree: &Simple) -> Option<BareName>
    ensures { option_map name_and_member result ≡ bare_in_simple (plain_simple tree.now) }
{
    match &tree.sign {
        None => unsigned(tree),
        Some(_) => None,
    }
}

// An expression.
fn bare(tree: &Expression) -> Option<BareName>
    ensures { option_map name_and_member result ≡ bare_in (plain_expression tree.now) }
{
    match &tree.compared {
        None => bare_simple(&tree.left),
        Some(_) => None,
    }
}

/// A list of arguments, if it is one qualident.
pub fn bare_list(tree: &List) -> Option<BareName>
    ensures { option_map name_and_member result ≡ bare_in_list (plain_list tree.now) }
{
    if tree.more.as_slice().is_empty() {
        bare(&tree.first)
    } else {
        None
    }
}
