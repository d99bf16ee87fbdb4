//! The tables of operators.

ghost use Rattle.std.specs.Prelude.{◌≡◌, ℕ, List, option_map};
ghost use Rattle.ob_types.specs.Table.{Table};
ghost use Rattle.ob_judge.specs.Operators.{on_numbers as number_row, on_sets as set_row, on_truths as truth_row, row_of as row_for};
ghost use Rattle.judged_tree.specs.Plain.{plain_expr, plain_link};
ghost use Rattle.check_types.specs.TypeMeaning.{type_shape};
ghost use Rattle.check_operands.specs.operators.Rows.{operator_of, row_meaning, row_shape, row_link};

use check_types::TypeRef;
use ob_types::{Binary, Expr, Link};

/// An operator between two operands.
#[derive(Clone, Copy)]
pub enum Operator {
    Plus,
    Minus,
    Times,
    Slash,
    Div,
    Mod,
    And,
    Or,
}

/// A row of the table: what the operator is in a tree, and the type of its result.
#[derive(Clone, Copy)]
pub enum Row {
    /// INTEGER.
    Numbers(Binary),
    /// SET.
    Sets(Binary),
    /// BOOLEAN, the right operand evaluated only where the left is TRUE.
    Both,
    /// BOOLEAN, the right operand evaluated only where the left is FALSE.
    Either,
}

fn on_numbers(operator: Operator) -> Option<Row>
    ensures { option_map row_meaning result ≡ number_row (operator_of operator) }
{
    match operator {
        Operator::Plus => Some(Row::Numbers(Binary::Add)),
        Operator::Minus => Some(Row::Numbers(Binary::Subtract)),
        Operator::Times => Some(Row::Numbers(Binary::Multiply)),
        Operator::Div => Some(Row::Numbers(Binary::Div)),
        Operator::Mod => Some(Row::Numbers(Binary::Mod)),
        _ => None,
    }
}

fn on_sets(operator: Operator) -> Option<Row>
    ensures { option_map row_meaning result ≡ set_row (operator_of operator) }
{
    match operator {
        Operator::Plus => Some(Row::Sets(Binary::Union)),
        Operator::Minus => Some(Row::Sets(Binary::Difference)),
        Operator::Times => Some(Row::Sets(Binary::Intersection)),
        Operator::Slash => Some(Row::Sets(Binary::SymmetricDifference)),
        _ => None,
    }
}

fn on_truths(operator: Operator) -> Option<Row>
    ensures { option_map row_meaning result ≡ truth_row (operator_of operator) }
{
    match operator {
        Operator::And => Some(Row::Both),
        Operator::Or => Some(Row::Either),
        _ => None,
    }
}

/// The row of an operator for operands of these types.
pub fn row_of(operator: Operator, a: TypeRef, b: TypeRef) -> Option<Row>
    ensures { (t : Table) → row_for (operator_of operator) (type_shape t a) (type_shape t b) ≡ option_map row_meaning result }
{
    match (a, b) {
        (TypeRef::Set, TypeRef::Set) => on_sets(operator),
        (TypeRef::Bool, TypeRef::Bool) => on_truths(operator),
        (TypeRef::Int, TypeRef::Int) => on_numbers(operator),
        (TypeRef::Int, TypeRef::Byte) => on_numbers(operator),
        (TypeRef::Byte, TypeRef::Int) => on_numbers(operator),
        (TypeRef::Byte, TypeRef::Byte) => on_numbers(operator),
        _ => None,
    }
}

impl Row {
    /// The type of the result.
    pub fn of(self) -> TypeRef
        ensures { (t : Table) → type_shape t result ≡ row_shape self }
    {
        match self {
            Row::Numbers(_) => TypeRef::Int,
            Row::Sets(_) => TypeRef::Set,
            Row::Both => TypeRef::Bool,
            Row::Either => TypeRef::Bool,
        }
    }

    /// What is done to the left operand.
    pub fn link(self, right: Expr) -> Link
        ensures { (t : Table) (texts : List (List ℕ)) → plain_link t texts result ≡ row_link self (plain_expr t texts right) }
    {
        match self {
            Row::Numbers(operator) => Link::Operate(operator, right),
            Row::Sets(operator) => Link::Operate(operator, right),
            Row::Both => Link::And(right),
            Row::Either => Link::Or(right),
        }
    }
}
