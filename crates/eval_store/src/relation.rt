//! Relations of values.

ghost use Rattle.std.specs.Prelude.{◌≡◌};
ghost use Rattle.ob_types.specs.Operators.{same_cell, relation_of as the_relation};
ghost use Rattle.eval_store.specs.Equality.{no_number, equality};

use crate::cell::{Cell, CellForm};
use ob_operators::related;
use ob_types::Relation;

// NIL is no object and no procedure, and another number can't be compared with them.
fn nil(x: u64) -> Option<bool>
    ensures { result ≡ no_number x }
{
    if x == 0 { Some(false) } else { None }
}

// Whether two values are the same, where they can be compared.
fn same(c: Cell, d: Cell) -> Option<bool>
    ensures { result ≡ same_cell c d }
{
    match c.form() {
        CellForm::Bits(x) => match d.form() {
            CellForm::Bits(y) => Some(x == y),
            _ => nil(x),
        },
        CellForm::Pointer(x) => match d.form() {
            CellForm::Bits(y) => nil(y),
            CellForm::Pointer(y) => Some(x == y),
            CellForm::Code(_) => None,
        },
        CellForm::Code(x) => match d.form() {
            CellForm::Bits(y) => nil(y),
            CellForm::Pointer(_) => None,
            CellForm::Code(y) => Some(x == y),
        },
    }
}

// Whether two values are the same or not, where that is asked.
fn same_or_not(relation: Relation, c: Cell, d: Cell) -> Option<bool>
    ensures { result ≡ equality relation c d }
{
    match relation {
        Relation::Equal => same(c, d),
        Relation::Unequal => match same(c, d) {
            Some(answer) => Some(!answer),
            None => None,
        },
        _ => None,
    }
}

/// A relation of two values, where they have it.
#[inline]
pub fn relation_of(relation: Relation, c: Cell, d: Cell) -> Option<bool>
    ensures { result ≡ the_relation relation c d }
{
    match c.form() {
        CellForm::Bits(x) => match d.form() {
            CellForm::Bits(y) => Some(related(relation, x, y)),
            _ => same_or_not(relation, c, d),
        },
        _ => same_or_not(relation, c, d),
    }
}
