//! The walk over a checked tree.

ghost use Rattle.std.specs.Prelude.{◌≡◌, ℕ, List, Some};
ghost use Rattle.ob_types.specs.Table.{Table};
ghost use Rattle.ob_judge.specs.Operands.{fold as value_of, fold_link as value_behind};
ghost use Rattle.judged_tree.specs.Plain.{plain_expr, plain_link};
ghost use Rattle.check_expressions.specs.folding.Links.{value_behind_each};

use ob_operators::{
    as_byte, binary, holds, is_in, related, truth, unary, with_element, with_elements,
};
use ob_types::{Expr, Link};

/// The value of a constant expression: a number, a truth value, a character, a set or NIL by its 64 bits. None where it
/// would trap, or where a part that is evaluated isn't constant.
#[cycle(fold)]
pub fn fold(tree: &Expr) -> Option<u64>
    ensures { (t : Table) (texts : List (List ℕ)) → value_of (plain_expr t texts tree.now) ≡ result }
{
    match tree {
        Expr::Literal(bits) => Some(*bits),
        Expr::Unary(operator, inner) => {
            let x = fold(inner)?;
            Some(unary(*operator, x))
        }
        Expr::Chain(first, links) => {
            let x = fold(first)?;
            fold_links(x, links)
        }
        Expr::Compare(relation, left, right) => {
            let x = fold(left)?;
            let y = fold(right)?;
            Some(truth(related(*relation, x, y)))
        }
        Expr::In(left, right) => {
            let x = fold(left)?;
            let set = fold(right)?;
            is_in(x, set)
        }
        Expr::Byte(inner) => {
            let x = fold(inner)?;
            as_byte(x)
        }
        Expr::Routine(_) => None,
        Expr::Load(_) => None,
        Expr::Guard(_, _) => None,
        Expr::CompareTexts(_, _, _) => None,
        Expr::IsPointer(_, _) => None,
        Expr::IsParameter(_, _) => None,
        Expr::Length(_) => None,
        Expr::Call(_) => None,
    }
}

/// A value, and what is done to it by one link after the other.
#[cycle(fold)]
fn fold_links(first: u64, links: &[Link]) -> Option<u64>
    ensures { (t : Table) (texts : List (List ℕ)) → value_behind_each t texts links.now (Some first) ≡ result }
{
    let mut x = first;
    for link in links {
        x = fold_link(x, link)?;
    }
    Some(x)
}

/// A value, and what a link does to it.
#[cycle(fold)]
fn fold_link(x: u64, link: &Link) -> Option<u64>
    ensures { (t : Table) (texts : List (List ℕ)) → value_behind (plain_link t texts link.now) (Some x) ≡ result }
{
    match link {
        Link::Operate(operator, right) => {
            let y = fold(right)?;
            binary(*operator, x, y)
        }
        Link::And(right) => { if holds(x) { fold(right) } else { Some(0) } }
        Link::Or(right) => { if holds(x) { Some(1) } else { fold(right) } }
        Link::Element(element) => {
            let a = fold(element)?;
            with_element(x, a)
        }
        Link::Elements(low, high) => {
            let a = fold(low)?;
            let b = fold(high)?;
            with_elements(x, a, b)
        }
    }
}
