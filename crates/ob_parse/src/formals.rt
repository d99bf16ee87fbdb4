//! Formal parameters.

ghost use Rattle.std.specs.Prelude.{◌≡◌};
ghost use Rattle.ob_grammar.specs.Grammar.{part, opt, many, ◌·◌, ARRAY, OF, colon, comma, formals, ident, qualident, section, semicolon};
ghost use Rattle.ob_grammar.specs.Reading.{is_next, first};
ghost use Rattle.ob_syntax.specs.Leaves.{each, optional};
ghost use Rattle.ob_syntax.specs.NameText.{next_ident_text};
ghost use Rattle.ob_syntax.specs.TypeText.{formals_text, open_array_text, result_type_text, next_section_text, section_text, sections_text};
ghost use Rattle.parse_steps.specs.Parsing.{Gives};

use ob_grammar::Terminal;
use ob_grammar::Terminal::{Mark, Word};
use ob_symbol::{Delimiter, Reserved};
use ob_syntax::names::NextIdent;
use ob_syntax::types::{Formals, NextSection, OpenArray, ResultType, Section, Sections};
use parse_expressions::names::qualident;
use parse_steps::{ParseFault, Parser};
use std::alloc::Global;

pub fn maybe_formals(parser: &mut Parser, alloc: Global) -> Result<Option<Formals>, ParseFault>
    ensures { Gives (opt (part formals)) (optional formals_text) parser.old parser.new result }
{
    if parser.is_at(Mark(Delimiter::LeftParen)) {
        let formals = formals(parser, alloc)?;
        Ok(Some(formals))
    } else {
        Ok(None)
    }
}

/// `"(" [section {";" section}] ")" [":" qualident]`
fn formals(parser: &mut Parser, alloc: Global) -> Result<Formals, ParseFault>
    ensures { Gives (part formals) formals_text parser.old parser.new result }
{
    let left_paren = parser.expect(Mark(Delimiter::LeftParen))?;
    let sections = maybe_sections(parser, alloc)?;
    let right_paren = parser.expect(Mark(Delimiter::RightParen))?;
    let result_type = result_type(parser)?;
    Ok(Formals {
        left_paren,
        sections,
        right_paren,
        result: result_type,
    })
}

/// `[section {";" section}]`
fn maybe_sections(parser: &mut Parser, alloc: Global) -> Result<Option<Sections>, ParseFault>
    ensures { Gives (opt (part section · many (semicolon · part section))) (optional sections_text) parser.old parser.new result }
{
    if begins_section(parser) {
        let first = section(parser, alloc)?;
        let more = more_sections(parser, alloc)?;
        Ok(Some(Sections { first, more }))
    } else {
        Ok(None)
    }
}

/// Whether a section can begin here.
fn begins_section(parser: &Parser) -> bool
    ensures { result ≡ is_next (first (part section)) parser.now.rest }
{
    parser.is_at_any(&[Word(Reserved::VarWord), Terminal::Ident])
}

/// `{";" section}`
fn more_sections(parser: &mut Parser, alloc: Global) -> Result<Vec<NextSection>, ParseFault>
    ensures { Gives (many (semicolon · part section)) (λ v. each next_section_text v.items) parser.old parser.new result }
{
    let mut more = Vec::new(alloc);
    'rounds: while let Some(semicolon) = parser.take(Mark(Delimiter::Semicolon)) {
        let next = section(parser, alloc)?;
        more.push(NextSection {
            semicolon,
            section: next,
        })?;
    }
    Ok(more)
}

/// `[VAR] ident {"," ident} ":" [ARRAY OF] qualident`
fn section(parser: &mut Parser, alloc: Global) -> Result<Section, ParseFault>
    ensures { Gives (part section) section_text parser.old parser.new result }
{
    let var_word = parser.take(Word(Reserved::VarWord));
    let first = parser.expect(Terminal::Ident)?;
    let more = more_names(parser, alloc)?;
    let colon = parser.expect(Mark(Delimiter::Colon))?;
    let open_array = open_array(parser)?;
    let of = qualident(parser)?;
    Ok(Section {
        var_word,
        first,
        more,
        colon,
        open_array,
        of,
    })
}

/// `{"," ident}`
fn more_names(parser: &mut Parser, alloc: Global) -> Result<Vec<NextIdent>, ParseFault>
    ensures { Gives (many (comma · ident)) (λ v. each next_ident_text v.items) parser.old parser.new result }
{
    let mut more = Vec::new(alloc);
    'rounds: while let Some(comma) = parser.take(Mark(Delimiter::Comma)) {
        let name = parser.expect(Terminal::Ident)?;
        more.push(NextIdent { comma, name })?;
    }
    Ok(more)
}

fn open_array(parser: &mut Parser) -> Result<Option<OpenArray>, ParseFault>
    ensures { Gives (opt (ARRAY · OF)) (optional open_array_text) parser.old parser.new result }
{
    match parser.take(Word(Reserved::ArrayWord)) {
        None => Ok(None),
        Some(array_word) => {
            let of_word = parser.expect(Word(Reserved::OfWord))?;
            Ok(Some(OpenArray {
                array_word,
                of_word,
            }))
        }
    }
}

fn result_type(parser: &mut Parser) -> Result<Option<ResultType>, ParseFault>
    ensures { Gives (opt (colon · part qualident)) (optional result_type_text) parser.old parser.new result }
{
    match parser.take(Mark(Delimiter::Colon)) {
        None => Ok(None),
        Some(colon) => {
            let name = qualident(parser)?;
            Ok(Some(ResultType { colon, name }))
        }
    }
}
