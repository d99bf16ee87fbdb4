//! What a part may begin with, where more than one terminal can stand first.

ghost use Rattle.std.specs.Prelude.{◌≡◌};
ghost use Rattle.ob_grammar.specs.Grammar.{part, ◌∣◌, arrow, expression, left_bracket, left_paren, period};
ghost use Rattle.ob_grammar.specs.Reading.{is_next, first};

use ob_grammar::Terminal;
use ob_grammar::Terminal::{Mark, Word};
use ob_symbol::{Delimiter, Reserved};
use parse_steps::Parser;

/// Whether an expression can begin here.
pub fn begins_expression(parser: &Parser) -> bool
    ensures { result ≡ is_next (first (part expression)) parser.now.rest }
{
    parser.is_at_any(&[
        Mark(Delimiter::Plus),
        Mark(Delimiter::Minus),
        Terminal::Int,
        Terminal::Text,
        Terminal::Char,
        Word(Reserved::NilWord),
        Word(Reserved::TrueWord),
        Word(Reserved::FalseWord),
        Mark(Delimiter::LeftBrace),
        Terminal::Ident,
        Mark(Delimiter::LeftParen),
        Mark(Delimiter::Tilde),
    ])
}

/// Whether a selector can begin here.
pub fn begins_selector(parser: &Parser) -> bool
    ensures { result ≡ is_next (first (period ∣ left_bracket ∣ arrow ∣ left_paren)) parser.now.rest }
{
    parser.is_at_any(&[
        Mark(Delimiter::Period),
        Mark(Delimiter::LeftBracket),
        Mark(Delimiter::Arrow),
        Mark(Delimiter::LeftParen),
    ])
}
