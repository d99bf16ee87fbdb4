//! Values and links in the walk.

ghost use Rattle.std.specs.Prelude.{◌≡◌, ℕ, List, IfOk, IfErr};
ghost use Rattle.ob_types.specs.Table.{Table};
ghost use Rattle.ob_judge.specs.Image.{Linked, Elements};
ghost use Rattle.judged_tree.specs.Plain.{plain_expr, plain_link};

use check_operands::trees::{Value, linked};
use check_types::steps::CheckFault;
use ob_types::Link;
use std::alloc::Global;

/// A value and what is done to it.
pub fn with_link(alloc: Global, x: Value, link: Link) -> Result<Value, CheckFault>
    ensures ok { IfOk result (λ v. (t : Table) (texts : List (List ℕ)) →
        plain_expr t texts v.tree ≡ Linked (plain_expr t texts x.tree) (plain_link t texts link)) }
    ensures memory { IfErr result (λ e. e ≡ CheckFault.Memory) }
{
    let tree = linked(alloc, x.into_tree(), link)?;
    Ok(Value::new(tree))
}

/// A set and all elements from one to another.
pub fn with_elements(
    alloc: Global,
    set: Value,
    low: Value,
    high: Value,
) -> Result<Value, CheckFault>
    ensures ok { IfOk result (λ v. (t : Table) (texts : List (List ℕ)) →
        plain_expr t texts v.tree ≡ Linked (plain_expr t texts set.tree) (Elements (plain_expr t texts low.tree) (plain_expr t texts high.tree))) }
    ensures memory { IfErr result (λ e. e ≡ CheckFault.Memory) }
{
    let first = Box::new(alloc, low.into_tree())?;
    let last = Box::new(alloc, high.into_tree())?;
    with_link(alloc, set, Link::Elements(first, last))
}
