//! The first symbol of an expression.

ghost use Rattle.std.specs.Prelude.{◌≡◌};
ghost use Rattle.ob_syntax.specs.Plain.{plain_expression, plain_factor};
ghost use Rattle.ob_judge.specs.Symbols.{expression_first as first_of_expression, factor_first as first_of_factor};

use ob_syntax::expressions::{Expression, Factor, Sign};

// Of a factor.
fn factor_first(tree: &Factor) -> u32
    ensures { result ≡ first_of_factor (plain_factor tree.now) }
{
    match tree {
        Factor::Int(symbol) => *symbol,
        Factor::Text(symbol) => *symbol,
        Factor::Char(symbol) => *symbol,
        Factor::Nil(symbol) => *symbol,
        Factor::True(symbol) => *symbol,
        Factor::False(symbol) => *symbol,
        Factor::Set(set) => set.left_brace,
        Factor::Designator(designator) => designator.name,
        Factor::Paren { left_paren, .. } => *left_paren,
        Factor::Not { tilde, .. } => *tilde,
    }
}

/// The first symbol of an expression.
pub fn expression_first(tree: &Expression) -> u32
    ensures { result ≡ first_of_expression (plain_expression tree.now) }
{
    match &tree.left.sign {
        None => factor_first(&tree.left.first.first),
        Some(Sign::Plus(symbol)) => *symbol,
        Some(Sign::Minus(symbol)) => *symbol,
    }
}
