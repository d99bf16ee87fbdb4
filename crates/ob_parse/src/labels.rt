//! Labels of cases.

ghost use Rattle.std.specs.Prelude.{◌≡◌};
ghost use Rattle.ob_grammar.specs.Grammar.{part, opt, many, ◌·◌, comma, dots, label, range};
ghost use Rattle.ob_grammar.specs.Reading.{is_next, first};
ghost use Rattle.ob_syntax.specs.Leaves.{each, optional};
ghost use Rattle.ob_syntax.specs.StatementText.{high_text, label_text, next_range_text, range_text};
ghost use Rattle.parse_steps.specs.Parsing.{Gives};

use ob_grammar::Terminal;
use ob_grammar::Terminal::Mark;
use ob_symbol::Delimiter;
use ob_syntax::statements::{High, Label, NextRange, Range};
use parse_expressions::names::qualident;
use parse_steps::{ParseFault, Parser};
use std::alloc::Global;

/// Whether a label can begin here.
pub fn begins_label(parser: &Parser) -> bool
    ensures { result ≡ is_next (first (part label)) parser.now.rest }
{
    parser.is_at_any(&[
        Terminal::Int,
        Terminal::Text,
        Terminal::Char,
        Terminal::Ident,
    ])
}

/// `{"," range}`
pub fn more_ranges(parser: &mut Parser, alloc: Global) -> Result<Vec<NextRange>, ParseFault>
    ensures { Gives (many (comma · part range)) (λ v. each next_range_text v.items) parser.old parser.new result }
{
    let mut more = Vec::new(alloc);
    'rounds: while let Some(comma) = parser.take(Mark(Delimiter::Comma)) {
        let next = range(parser)?;
        more.push(NextRange { comma, range: next })?;
    }
    Ok(more)
}

/// `label [".." label]`
pub fn range(parser: &mut Parser) -> Result<Range, ParseFault>
    ensures { Gives (part range) range_text parser.old parser.new result }
{
    let low = label(parser)?;
    let high = maybe_high(parser)?;
    Ok(Range { low, high })
}

fn maybe_high(parser: &mut Parser) -> Result<Option<High>, ParseFault>
    ensures { Gives (opt (dots · part label)) (optional high_text) parser.old parser.new result }
{
    match parser.take(Mark(Delimiter::Range)) {
        None => Ok(None),
        Some(dots) => {
            let label = label(parser)?;
            Ok(Some(High { dots, label }))
        }
    }
}

/// `integer | string | char | qualident`
fn label(parser: &mut Parser) -> Result<Label, ParseFault>
    ensures { Gives (part label) label_text parser.old parser.new result }
{
    if parser.is_at(Terminal::Int) {
        let at = parser.advance();
        Ok(Label::Int(at))
    } else if parser.is_at(Terminal::Text) {
        let at = parser.advance();
        Ok(Label::Text(at))
    } else if parser.is_at(Terminal::Char) {
        let at = parser.advance();
        Ok(Label::Char(at))
    } else {
        let name = qualident(parser)?;
        Ok(Label::Named(name))
    }
}
