//! Values and what is done to them.

ghost use Rattle.std.specs.Prelude.{◌≡◌, ℕ, List, IfOk};
ghost use Rattle.ob_types.specs.Table.{Table};
ghost use Rattle.ob_judge.specs.Image as I;
ghost use Rattle.judged_tree.specs.Plain.{plain_expr, plain_designator, plain_link, plain_call, guarded};

use items::Items;
use ob_types::{Call, Designator, Expr, Link, Relation, Unary};
use std::alloc::{AllocError, Global};

/// A value, and one more thing done to it.
pub fn linked(alloc: Global, x: Expr, link: Link) -> Result<Expr, AllocError>
    ensures { IfOk result (λ e. (t : Table) (texts : List (List ℕ)) → plain_expr t texts e ≡ I.Linked (plain_expr t texts x) (plain_link t texts link)) }
{
    match x {
        Expr::Chain(first, links) => {
            let mut more = links;
            more.push(link)?;
            Ok(Expr::Chain(first, more))
        }
        other => begun(alloc, other, link),
    }
}

// A value, and the first thing done to it. Room is taken for that one, since most chains have one link.
fn begun(alloc: Global, x: Expr, link: Link) -> Result<Expr, AllocError>
    ensures { IfOk result (λ e. (t : Table) (texts : List (List ℕ)) → plain_expr t texts e ≡ I.Linked (plain_expr t texts x) (plain_link t texts link)) }
{
    let links = vec![in alloc; link]?;
    let first = Box::new(alloc, x)?;
    Ok(Expr::Chain(first, links))
}

/// An operator of one operand.
pub fn apply(alloc: Global, operator: Unary, x: Expr) -> Result<Expr, AllocError>
    ensures { IfOk result (λ e. (t : Table) (texts : List (List ℕ)) → plain_expr t texts e ≡ I.Apply operator (plain_expr t texts x)) }
{
    let held = Box::new(alloc, x)?;
    Ok(Expr::Unary(operator, held))
}

/// A relation of two scalars.
pub fn compare(alloc: Global, relation: Relation, x: Expr, y: Expr) -> Result<Expr, AllocError>
    ensures { IfOk result (λ e. (t : Table) (texts : List (List ℕ)) → plain_expr t texts e ≡ I.Compare relation (plain_expr t texts x) (plain_expr t texts y)) }
{
    let left = Box::new(alloc, x)?;
    let right = Box::new(alloc, y)?;
    Ok(Expr::Compare(relation, left, right))
}

/// A relation of two texts.
pub fn compare_texts(
    alloc: Global,
    relation: Relation,
    x: Designator,
    y: Designator,
) -> Result<Expr, AllocError>
    ensures { IfOk result (λ e. (t : Table) (texts : List (List ℕ)) → plain_expr t texts e ≡ I.CompareTexts relation (plain_designator t texts x) (plain_designator t texts y)) }
{
    let left = Box::new(alloc, x)?;
    let right = Box::new(alloc, y)?;
    Ok(Expr::CompareTexts(relation, left, right))
}

/// Whether an element is in a set.
pub fn is_in(alloc: Global, x: Expr, set: Expr) -> Result<Expr, AllocError>
    ensures { IfOk result (λ e. (t : Table) (texts : List (List ℕ)) → plain_expr t texts e ≡ I.In (plain_expr t texts x) (plain_expr t texts set)) }
{
    let left = Box::new(alloc, x)?;
    let right = Box::new(alloc, set)?;
    Ok(Expr::In(left, right))
}

/// Whether a pointer's object is of this record type or an extension of it.
pub fn is_pointer(alloc: Global, x: Expr, tag: u32) -> Result<Expr, AllocError>
    ensures { IfOk result (λ e. (t : Table) (texts : List (List ℕ)) → plain_expr t texts e ≡ I.IsPointer (plain_expr t texts x) tag) }
{
    let held = Box::new(alloc, x)?;
    Ok(Expr::IsPointer(held, tag))
}

/// A value that becomes a BYTE.
pub fn as_byte(alloc: Global, x: Expr) -> Result<Expr, AllocError>
    ensures { IfOk result (λ e. (t : Table) (texts : List (List ℕ)) → plain_expr t texts e ≡ I.AsByte (plain_expr t texts x)) }
{
    let held = Box::new(alloc, x)?;
    Ok(Expr::Byte(held))
}

/// A call with a result.
pub fn call(alloc: Global, made: Call) -> Result<Expr, AllocError>
    ensures { IfOk result (λ e. (t : Table) (texts : List (List ℕ)) → plain_expr t texts e ≡ I.Result (plain_call t texts made)) }
{
    let held = Box::new(alloc, made)?;
    Ok(Expr::Call(held))
}

/// A value whose tree is dropped as a whole.
pub struct Value {
    pub tree: Expr,
}

impl Value {
    /// A value.
    pub fn new(tree: Expr) -> Value
        ensures { result ≡ record { tree = tree } }
    {
        Value { tree }
    }

    /// Its tree.
    pub fn into_tree(self) -> Expr
        ensures { result ≡ self.tree }
    {
        let Value { tree } = self;
        tree
    }
}

// Drops a tree.
fn discard(_tree: Expr) {}

impl Drop for Value {
    fn drop(self) {
        let Value { tree } = self;
        discard(tree);
    }
}
