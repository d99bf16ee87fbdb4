//! Expressions, and the designators and sets in them.

ghost use Rattle.std.specs.Prelude.{◌≡◌, ◌<◌, false, OnOk};
ghost use Rattle.ob_grammar.specs.Grammar.{opening, part, opt, many, ◌·◌, ◌∣◌, DIV, FALSE, IN, IS, MOD, NIL, OR, TRUE, ampersand, arrow, char, comma, designator, dots, element, equal, expression, factor, greater, greater_equal, ident, left_bracket, left_paren, less, less_equal, list, minus, not_equal, period, plus, right_bracket, right_paren, set, simple, slash, string, term, tilde, times};
ghost use Rattle.ob_grammar.specs.Reading.{first, is_next};
ghost use Rattle.ob_syntax.specs.Leaves.{boxed, each, optional};
ghost use Rattle.ob_syntax.specs.ExpressionText.{added_text, compared_text, designator_text, element_high_text, element_text, elements_text, expression_text, factor_text, list_text, multiplied_text, next_element_text, next_expression_text, selector_text, set_text, simple_text, term_text};
ghost use Rattle.parse_steps.specs.Parsing.{Gives};

use crate::operators::{add_operator, mul_operator, relation, sign};
use crate::starts::{begins_expression, begins_selector};
use ob_grammar::Terminal;
use ob_grammar::Terminal::{Mark, Word};
use ob_symbol::{Delimiter, Reserved};
use ob_syntax::expressions::{
    Added, Compared, Designator, Element, ElementHigh, Elements, Expression, Factor, List,
    Multiplied, NextElement, NextExpression, Selector, Set, Simple, Term,
};
use parse_steps::{ParseFault, Parser, add};
use std::alloc::Global;

/// `simple [("=" | "#" | "<" | "<=" | ">" | ">=" | IN | IS) simple]`
#[cycle(expressions)]
pub fn expression(parser: &mut Parser, alloc: Global) -> Result<Expression, ParseFault>
    ensures { Gives (part expression) expression_text parser.old parser.new result }
{
    let left = simple(parser, alloc)?;
    let compared = compared(parser, alloc)?;
    Ok(Expression { left, compared })
}

#[cycle(expressions)]
fn compared(parser: &mut Parser, alloc: Global) -> Result<Option<Box<Compared>>, ParseFault>
    ensures { Gives (opt ((equal ∣ not_equal ∣ less ∣ less_equal ∣ greater ∣ greater_equal ∣ IN ∣ IS) · part simple))
        (optional (boxed compared_text)) parser.old parser.new result }
{
    match relation(parser) {
        None => Ok(None),
        Some(relation) => {
            let right = simple(parser, alloc)?;
            let held = Box::new(alloc, Compared { relation, right })?;
            Ok(Some(held))
        }
    }
}

/// `["+" | "-"] term {("+" | "-" | OR) term}`
#[cycle(expressions)]
fn simple(parser: &mut Parser, alloc: Global) -> Result<Simple, ParseFault>
    ensures { Gives (part simple) simple_text parser.old parser.new result }
{
    let sign = sign(parser);
    let first = term(parser, alloc)?;
    let more = more_terms(parser, alloc)?;
    Ok(Simple { sign, first, more })
}

/// `{("+" | "-" | OR) term}`
#[cycle(expressions)]
fn more_terms(parser: &mut Parser, alloc: Global) -> Result<Vec<Added>, ParseFault>
    ensures { Gives (many ((plus ∣ minus ∣ OR) · part term)) (λ v. each added_text v.items) parser.old parser.new result }
{
    let mut more = Vec::new(alloc);
    'rounds: while let Some(operator) = add_operator(parser) {
        let next = term(parser, alloc)?;
        add(
            &mut more,
            Added {
                operator,
                term: next,
            },
        )?;
    }
    Ok(more)
}

/// `factor {("*" | "/" | DIV | MOD | "&") factor}`
#[cycle(expressions)]
fn term(parser: &mut Parser, alloc: Global) -> Result<Term, ParseFault>
    ensures { Gives (part term) term_text parser.old parser.new result }
{
    let first = factor(parser, alloc)?;
    let more = more_factors(parser, alloc)?;
    Ok(Term { first, more })
}

/// `{("*" | "/" | DIV | MOD | "&") factor}`
#[cycle(expressions)]
fn more_factors(parser: &mut Parser, alloc: Global) -> Result<Vec<Multiplied>, ParseFault>
    ensures { Gives (many ((times ∣ slash ∣ DIV ∣ MOD ∣ ampersand) · part factor)) (λ v. each multiplied_text v.items) parser.old parser.new result }
{
    let mut more = Vec::new(alloc);
    'rounds: while let Some(operator) = mul_operator(parser) {
        let next = factor(parser, alloc)?;
        add(
            &mut more,
            Multiplied {
                operator,
                factor: next,
            },
        )?;
    }
    Ok(more)
}

/// A literal, a set, a designator, an expression in parentheses, or `"~" factor`.
#[cycle(expressions)]
fn factor(parser: &mut Parser, alloc: Global) -> Result<Factor, ParseFault>
    ensures { Gives (part factor) factor_text parser.old parser.new result }
{
    if parser.is_at(Terminal::Ident) {
        let designator = designator(parser, alloc)?;
        Ok(Factor::Designator(designator))
    } else if parser.is_at(Terminal::Int) {
        let at = parser.advance();
        Ok(Factor::Int(at))
    } else {
        other_factor(parser, alloc)
    }
}

/// A factor that is no whole number and begins with no name. Most factors are one or the other, so these stand apart.
#[cycle(expressions)]
#[inline(never)]
fn other_factor(parser: &mut Parser, alloc: Global) -> Result<Factor, ParseFault>
    requires { false ≡ is_next (first ident) parser.old.rest }
    ensures { Gives (string ∣ char ∣ NIL ∣ TRUE ∣ FALSE ∣ part set ∣ part designator ∣ opening left_paren (part expression · right_paren)
        ∣ opening tilde (part factor)) factor_text parser.old parser.new result }
{
    if parser.is_at(Terminal::Text) {
        let at = parser.advance();
        Ok(Factor::Text(at))
    } else if parser.is_at(Terminal::Char) {
        let at = parser.advance();
        Ok(Factor::Char(at))
    } else if parser.is_at(Word(Reserved::NilWord)) {
        let at = parser.advance();
        Ok(Factor::Nil(at))
    } else if parser.is_at(Word(Reserved::TrueWord)) {
        let at = parser.advance();
        Ok(Factor::True(at))
    } else if parser.is_at(Word(Reserved::FalseWord)) {
        let at = parser.advance();
        Ok(Factor::False(at))
    } else if parser.is_at(Mark(Delimiter::LeftBrace)) {
        set_factor(parser, alloc)
    } else if parser.is_at(Mark(Delimiter::LeftParen)) {
        paren(parser, alloc)
    } else {
        negation(parser, alloc)
    }
}

/// A set.
#[cycle(expressions)]
#[inline(never)]
fn set_factor(parser: &mut Parser, alloc: Global) -> Result<Factor, ParseFault>
    ensures { Gives (part set) factor_text parser.old parser.new result }
{
    let set = set(parser, alloc)?;
    let held = Box::new(alloc, set)?;
    Ok(Factor::Set(held))
}

/// `"(" expression ")"`
#[cycle(expressions)]
#[inline(never)]
fn paren(parser: &mut Parser, alloc: Global) -> Result<Factor, ParseFault>
    ensures { Gives (opening left_paren (part expression · right_paren)) factor_text parser.old parser.new result }
{
    let left_paren = parser.enter(Mark(Delimiter::LeftParen))?;
    let inner = expression(parser, alloc)?;
    let right_paren = parser.expect(Mark(Delimiter::RightParen))?;
    parser.leave();
    let held = Box::new(alloc, inner)?;
    Ok(Factor::Paren {
        left_paren,
        expression: held,
        right_paren,
    })
}

/// `"~" factor`
#[cycle(expressions)]
#[inline(never)]
fn negation(parser: &mut Parser, alloc: Global) -> Result<Factor, ParseFault>
    ensures { Gives (opening tilde (part factor)) factor_text parser.old parser.new result }
{
    let tilde = parser.enter(Mark(Delimiter::Tilde))?;
    let inner = factor(parser, alloc)?;
    parser.leave();
    let held = Box::new(alloc, inner)?;
    Ok(Factor::Not {
        tilde,
        factor: held,
    })
}

/// `expression {"," expression}`
#[cycle(expressions)]
fn list(parser: &mut Parser, alloc: Global) -> Result<List, ParseFault>
    ensures { Gives (part list) list_text parser.old parser.new result }
{
    let first = expression(parser, alloc)?;
    let more = more_expressions(parser, alloc)?;
    Ok(List { first, more })
}

/// `{"," expression}`
#[cycle(expressions)]
pub fn more_expressions(
    parser: &mut Parser,
    alloc: Global,
) -> Result<Vec<NextExpression>, ParseFault>
    ensures { Gives (many (comma · part expression)) (λ v. each next_expression_text v.items) parser.old parser.new result }
{
    let mut more = Vec::new(alloc);
    'rounds: while let Some(comma) = parser.take(Mark(Delimiter::Comma)) {
        let next = expression(parser, alloc)?;
        add(
            &mut more,
            NextExpression {
                comma,
                expression: next,
            },
        )?;
    }
    Ok(more)
}

/// `ident {"." ident | "[" list "]" | "^" | "(" [list] ")"}`
#[cycle(expressions)]
pub fn designator(parser: &mut Parser, alloc: Global) -> Result<Designator, ParseFault>
    ensures { Gives (part designator) designator_text parser.old parser.new result }
{
    let name = parser.expect(Terminal::Ident)?;
    let mut selectors = Vec::new(alloc);
    'rounds: while begins_selector(parser) {
        let next = selector(parser, alloc)?;
        add(&mut selectors, next)?;
    }
    Ok(Designator { name, selectors })
}

/// `"." ident | "[" list "]" | "^" | "(" [list] ")"`
#[cycle(expressions)]
fn selector(parser: &mut Parser, alloc: Global) -> Result<Selector, ParseFault>
    ensures gives { Gives (period · ident ∣ opening left_bracket (part list · right_bracket) ∣ arrow
        ∣ opening left_paren (opt (part list) · right_paren)) selector_text parser.old parser.new result }
    ensures next { OnOk result (parser.old.at < parser.new.at) }
{
    if parser.is_at(Mark(Delimiter::Period)) {
        let field = field(parser)?;
        Ok(field)
    } else if parser.is_at(Mark(Delimiter::LeftBracket)) {
        let index = index(parser, alloc)?;
        Ok(index)
    } else if parser.is_at(Mark(Delimiter::Arrow)) {
        let arrow = parser.advance();
        Ok(Selector::Arrow(arrow))
    } else {
        let parens = parens(parser, alloc)?;
        Ok(parens)
    }
}

/// `"." ident`
fn field(parser: &mut Parser) -> Result<Selector, ParseFault>
    ensures gives { Gives (period · ident) selector_text parser.old parser.new result }
    ensures next { OnOk result (parser.old.at < parser.new.at) }
{
    let period = parser.expect(Mark(Delimiter::Period))?;
    let name = parser.expect(Terminal::Ident)?;
    Ok(Selector::Field { period, name })
}

/// `"[" list "]"`
#[cycle(expressions)]
fn index(parser: &mut Parser, alloc: Global) -> Result<Selector, ParseFault>
    ensures gives { Gives (opening left_bracket (part list · right_bracket)) selector_text parser.old parser.new result }
    ensures next { OnOk result (parser.old.at < parser.new.at) }
{
    let left_bracket = parser.enter(Mark(Delimiter::LeftBracket))?;
    let inner = list(parser, alloc)?;
    let right_bracket = parser.expect(Mark(Delimiter::RightBracket))?;
    parser.leave();
    Ok(Selector::Index {
        left_bracket,
        list: inner,
        right_bracket,
    })
}

/// `"(" [list] ")"`
#[cycle(expressions)]
fn parens(parser: &mut Parser, alloc: Global) -> Result<Selector, ParseFault>
    ensures gives { Gives (opening left_paren (opt (part list) · right_paren)) selector_text parser.old parser.new result }
    ensures next { OnOk result (parser.old.at < parser.new.at) }
{
    let left_paren = parser.enter(Mark(Delimiter::LeftParen))?;
    let inner = maybe_list(parser, alloc)?;
    let right_paren = parser.expect(Mark(Delimiter::RightParen))?;
    parser.leave();
    Ok(Selector::Parens {
        left_paren,
        list: inner,
        right_paren,
    })
}

#[cycle(expressions)]
fn maybe_list(parser: &mut Parser, alloc: Global) -> Result<Option<List>, ParseFault>
    ensures { Gives (opt (part list)) (optional list_text) parser.old parser.new result }
{
    if begins_expression(parser) {
        let inner = list(parser, alloc)?;
        Ok(Some(inner))
    } else {
        Ok(None)
    }
}

/// `"{" [element {"," element}] "}"`
#[cycle(expressions)]
fn set(parser: &mut Parser, alloc: Global) -> Result<Set, ParseFault>
    ensures { Gives (part set) set_text parser.old parser.new result }
{
    let left_brace = parser.enter(Mark(Delimiter::LeftBrace))?;
    let elements = elements(parser, alloc)?;
    let right_brace = parser.expect(Mark(Delimiter::RightBrace))?;
    parser.leave();
    Ok(Set {
        left_brace,
        elements,
        right_brace,
    })
}

/// `[element {"," element}]`
#[cycle(expressions)]
fn elements(parser: &mut Parser, alloc: Global) -> Result<Option<Elements>, ParseFault>
    ensures { Gives (opt (part element · many (comma · part element))) (optional elements_text) parser.old parser.new result }
{
    if begins_expression(parser) {
        let first = element(parser, alloc)?;
        let more = more_elements(parser, alloc)?;
        Ok(Some(Elements { first, more }))
    } else {
        Ok(None)
    }
}

/// `{"," element}`
#[cycle(expressions)]
fn more_elements(parser: &mut Parser, alloc: Global) -> Result<Vec<NextElement>, ParseFault>
    ensures { Gives (many (comma · part element)) (λ v. each next_element_text v.items) parser.old parser.new result }
{
    let mut more = Vec::new(alloc);
    'rounds: while let Some(comma) = parser.take(Mark(Delimiter::Comma)) {
        let next = element(parser, alloc)?;
        add(
            &mut more,
            NextElement {
                comma,
                element: next,
            },
        )?;
    }
    Ok(more)
}

/// `expression [".." expression]`
#[cycle(expressions)]
fn element(parser: &mut Parser, alloc: Global) -> Result<Element, ParseFault>
    ensures { Gives (part element) element_text parser.old parser.new result }
{
    let low = expression(parser, alloc)?;
    let high = element_high(parser, alloc)?;
    Ok(Element { low, high })
}

#[cycle(expressions)]
fn element_high(parser: &mut Parser, alloc: Global) -> Result<Option<ElementHigh>, ParseFault>
    ensures { Gives (opt (dots · part expression)) (optional element_high_text) parser.old parser.new result }
{
    match parser.take(Mark(Delimiter::Range)) {
        None => Ok(None),
        Some(dots) => {
            let high = expression(parser, alloc)?;
            Ok(Some(ElementHigh {
                dots,
                expression: high,
            }))
        }
    }
}
