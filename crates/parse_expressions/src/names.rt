//! Names: where they are declared, and where they are used.

ghost use Rattle.std.specs.Prelude.{◌<◌, OnOk};
ghost use Rattle.ob_grammar.specs.Grammar.{part, opt, ◌·◌, ident, identdef, idents, period, qualident};
ghost use Rattle.ob_syntax.specs.Leaves.{optional};
ghost use Rattle.ob_syntax.specs.NameText.{identdef_text, idents_text, member_text, qualident_text};
ghost use Rattle.parse_steps.specs.Parsing.{Gives};

use ob_grammar::Terminal;
use ob_grammar::Terminal::Mark;
use ob_symbol::Delimiter;
use ob_syntax::names::{Identdef, Idents, Member, NextIdentdef, Qualident};
use parse_steps::{ParseFault, Parser};
use std::alloc::Global;

/// `ident ["*"]`
pub fn identdef(parser: &mut Parser) -> Result<Identdef, ParseFault>
    ensures gives { Gives (part identdef) identdef_text parser.old parser.new result }
    ensures next { OnOk result (parser.old.at < parser.new.at) }
{
    let name = parser.expect(Terminal::Ident)?;
    let star = parser.take(Mark(Delimiter::Times));
    Ok(Identdef { name, star })
}

/// `identdef {"," identdef}`
pub fn idents(parser: &mut Parser, alloc: Global) -> Result<Idents, ParseFault>
    ensures gives { Gives (part idents) idents_text parser.old parser.new result }
    ensures next { OnOk result (parser.old.at < parser.new.at) }
{
    let first = identdef(parser)?;
    let mut more = Vec::new(alloc);
    'rounds: while let Some(comma) = parser.take(Mark(Delimiter::Comma)) {
        let name = identdef(parser)?;
        more.push(NextIdentdef { comma, name })?;
    }
    Ok(Idents { first, more })
}

/// `ident ["." ident]`
pub fn qualident(parser: &mut Parser) -> Result<Qualident, ParseFault>
    ensures { Gives (part qualident) qualident_text parser.old parser.new result }
{
    let name = parser.expect(Terminal::Ident)?;
    let member = member(parser)?;
    Ok(Qualident { name, member })
}

fn member(parser: &mut Parser) -> Result<Option<Member>, ParseFault>
    ensures { Gives (opt (period · ident)) (optional member_text) parser.old parser.new result }
{
    match parser.take(Mark(Delimiter::Period)) {
        None => Ok(None),
        Some(period) => {
            let name = parser.expect(Terminal::Ident)?;
            Ok(Some(Member { period, name }))
        }
    }
}
