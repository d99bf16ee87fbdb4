//! Operators: which one stands next.

ghost use Rattle.ob_grammar.specs.Grammar.{◌∣◌, DIV, IN, IS, MOD, OR, ampersand, equal, greater, greater_equal, less, less_equal, minus, not_equal, plus, slash, times};
ghost use Rattle.ob_syntax.specs.ExpressionText.{add_operator_text, mul_operator_text, relation_text, sign_text};
ghost use Rattle.parse_steps.specs.Parsing.{Takes};

use ob_grammar::Terminal::{Mark, Word};
use ob_symbol::{Delimiter, Reserved};
use ob_syntax::expressions::{AddOperator, MulOperator, Relation, Sign};
use parse_steps::Parser;

/// An operator that compares, if one is next.
pub fn relation(parser: &mut Parser) -> Option<Relation>
    ensures { Takes (equal ∣ not_equal ∣ less ∣ less_equal ∣ greater ∣ greater_equal ∣ IN ∣ IS) relation_text parser.old parser.new result }
{
    if parser.is_at(Mark(Delimiter::Equal)) {
        let at = parser.advance();
        Some(Relation::Equal(at))
    } else if parser.is_at(Mark(Delimiter::NotEqual)) {
        let at = parser.advance();
        Some(Relation::NotEqual(at))
    } else if parser.is_at(Mark(Delimiter::Less)) {
        let at = parser.advance();
        Some(Relation::Less(at))
    } else if parser.is_at(Mark(Delimiter::LessEqual)) {
        let at = parser.advance();
        Some(Relation::LessEqual(at))
    } else if parser.is_at(Mark(Delimiter::Greater)) {
        let at = parser.advance();
        Some(Relation::Greater(at))
    } else if parser.is_at(Mark(Delimiter::GreaterEqual)) {
        let at = parser.advance();
        Some(Relation::GreaterEqual(at))
    } else if parser.is_at(Word(Reserved::InWord)) {
        let at = parser.advance();
        Some(Relation::In(at))
    } else if parser.is_at(Word(Reserved::IsWord)) {
        let at = parser.advance();
        Some(Relation::Is(at))
    } else {
        None
    }
}

/// A sign, if one is next.
pub fn sign(parser: &mut Parser) -> Option<Sign>
    ensures { Takes (plus ∣ minus) sign_text parser.old parser.new result }
{
    if parser.is_at(Mark(Delimiter::Plus)) {
        let at = parser.advance();
        Some(Sign::Plus(at))
    } else if parser.is_at(Mark(Delimiter::Minus)) {
        let at = parser.advance();
        Some(Sign::Minus(at))
    } else {
        None
    }
}

/// An operator that adds, if one is next.
pub fn add_operator(parser: &mut Parser) -> Option<AddOperator>
    ensures { Takes (plus ∣ minus ∣ OR) add_operator_text parser.old parser.new result }
{
    if parser.is_at(Mark(Delimiter::Plus)) {
        let at = parser.advance();
        Some(AddOperator::Plus(at))
    } else if parser.is_at(Mark(Delimiter::Minus)) {
        let at = parser.advance();
        Some(AddOperator::Minus(at))
    } else if parser.is_at(Word(Reserved::OrWord)) {
        let at = parser.advance();
        Some(AddOperator::Or(at))
    } else {
        None
    }
}

/// An operator that multiplies, if one is next.
pub fn mul_operator(parser: &mut Parser) -> Option<MulOperator>
    ensures { Takes (times ∣ slash ∣ DIV ∣ MOD ∣ ampersand) mul_operator_text parser.old parser.new result }
{
    if parser.is_at(Mark(Delimiter::Times)) {
        let at = parser.advance();
        Some(MulOperator::Times(at))
    } else if parser.is_at(Mark(Delimiter::Slash)) {
        let at = parser.advance();
        Some(MulOperator::Slash(at))
    } else if parser.is_at(Word(Reserved::DivWord)) {
        let at = parser.advance();
        Some(MulOperator::Div(at))
    } else if parser.is_at(Word(Reserved::ModWord)) {
        let at = parser.advance();
        Some(MulOperator::Mod(at))
    } else if parser.is_at(Mark(Delimiter::Ampersand)) {
        let at = parser.advance();
        Some(MulOperator::And(at))
    } else {
        None
    }
}
