//! Statements.

ghost use Rattle.ob_grammar.specs.Grammar.{opening, part, opt, many, ◌·◌, BEGIN, BY, CASE, DO, ELSE, ELSIF, END, FOR, IF, OF, REPEAT, THEN, TO, UNTIL, WHILE, bar, becomes, case, designator, expression, ident, semicolon, stat, stats};
ghost use Rattle.ob_syntax.specs.Leaves.{each, optional};
ghost use Rattle.ob_syntax.specs.StatementText.{assign_or_call_text, assigned_text, body_text, by_text, case_text, else_text, elsif_do_text, elsif_text, next_case_text, next_stat_text, stat_text, stats_text};
ghost use Rattle.parse_steps.specs.Parsing.{Gives};

use crate::labels::{begins_label, more_ranges, range};
use ob_grammar::Terminal;
use ob_grammar::Terminal::{Mark, Word};
use ob_symbol::{Delimiter, Reserved};
use ob_syntax::statements::{
    AssignOrCall, Assigned, Body, By, Case, CasePart, CaseStat, Else, Elsif, ElsifDo, ForStat,
    IfStat, NextCase, NextStat, RepeatStat, Stat, Stats, WhileStat,
};
use parse_expressions::{designator, expression};
use parse_steps::{ParseFault, Parser};
use std::alloc::Global;

/// `stat {";" stat}`
#[cycle(statements)]
fn stats(parser: &mut Parser, alloc: Global) -> Result<Stats, ParseFault>
    ensures { Gives (part stats) stats_text parser.old parser.new result }
{
    let first = stat(parser, alloc)?;
    let more = more_stats(parser, alloc)?;
    Ok(Stats { first, more })
}

/// `{";" stat}`
#[cycle(statements)]
fn more_stats(parser: &mut Parser, alloc: Global) -> Result<Vec<NextStat>, ParseFault>
    ensures { Gives (many (semicolon · part stat)) (λ v. each next_stat_text v.items) parser.old parser.new result }
{
    let mut more = Vec::new(alloc);
    'rounds: while let Some(semicolon) = parser.take(Mark(Delimiter::Semicolon)) {
        let next = stat(parser, alloc)?;
        more.push(NextStat {
            semicolon,
            stat: next,
        })?;
    }
    Ok(more)
}

/// A statement, or none.
#[cycle(statements)]
fn stat(parser: &mut Parser, alloc: Global) -> Result<Stat, ParseFault>
    ensures { Gives (part stat) stat_text parser.old parser.new result }
{
    if parser.is_at(Terminal::Ident) {
        let made = assign_or_call(parser, alloc)?;
        let held = Box::new(alloc, made)?;
        Ok(Stat::AssignOrCall(held))
    } else if parser.is_at(Word(Reserved::IfWord)) {
        let made = if_stat(parser, alloc)?;
        Ok(made)
    } else if parser.is_at(Word(Reserved::CaseWord)) {
        let made = case_stat(parser, alloc)?;
        Ok(made)
    } else if parser.is_at(Word(Reserved::WhileWord)) {
        let made = while_stat(parser, alloc)?;
        Ok(made)
    } else if parser.is_at(Word(Reserved::RepeatWord)) {
        let made = repeat_stat(parser, alloc)?;
        Ok(made)
    } else if parser.is_at(Word(Reserved::ForWord)) {
        let made = for_stat(parser, alloc)?;
        Ok(made)
    } else {
        Ok(Stat::Empty)
    }
}

/// `designator [":=" expression]`
fn assign_or_call(parser: &mut Parser, alloc: Global) -> Result<AssignOrCall, ParseFault>
    ensures { Gives (part designator · opt (becomes · part expression)) assign_or_call_text parser.old parser.new result }
{
    let designator = designator(parser, alloc)?;
    let assigned = maybe_assigned(parser, alloc)?;
    Ok(AssignOrCall {
        designator,
        assigned,
    })
}

fn maybe_assigned(parser: &mut Parser, alloc: Global) -> Result<Option<Assigned>, ParseFault>
    ensures { Gives (opt (becomes · part expression)) (optional assigned_text) parser.old parser.new result }
{
    match parser.take(Mark(Delimiter::Becomes)) {
        None => Ok(None),
        Some(becomes) => {
            let value = expression(parser, alloc)?;
            Ok(Some(Assigned { becomes, value }))
        }
    }
}

/// `IF expression THEN stats {ELSIF expression THEN stats} [ELSE stats] END`
#[cycle(statements)]
fn if_stat(parser: &mut Parser, alloc: Global) -> Result<Stat, ParseFault>
    ensures { Gives (opening IF (part expression · THEN · part stats · many (ELSIF · part expression · THEN · part stats)
        · opt (ELSE · part stats) · END)) stat_text parser.old parser.new result }
{
    let if_word = parser.enter(Word(Reserved::IfWord))?;
    let guard = expression(parser, alloc)?;
    let then_word = parser.expect(Word(Reserved::ThenWord))?;
    let body = stats(parser, alloc)?;
    let elsifs = elsifs(parser, alloc)?;
    let otherwise = maybe_else(parser, alloc)?;
    let end_word = parser.expect(Word(Reserved::EndWord))?;
    parser.leave();
    let held = Box::new(
        alloc,
        IfStat {
            if_word,
            guard,
            then_word,
            body,
            elsifs,
            otherwise,
            end_word,
        },
    )?;
    Ok(Stat::If(held))
}

/// `{ELSIF expression THEN stats}`
#[cycle(statements)]
fn elsifs(parser: &mut Parser, alloc: Global) -> Result<Vec<Elsif>, ParseFault>
    ensures { Gives (many (ELSIF · part expression · THEN · part stats)) (λ v. each elsif_text v.items) parser.old parser.new result }
{
    let mut elsifs = Vec::new(alloc);
    'rounds: while let Some(elsif_word) = parser.take(Word(Reserved::ElsifWord)) {
        let guard = expression(parser, alloc)?;
        let then_word = parser.expect(Word(Reserved::ThenWord))?;
        let body = stats(parser, alloc)?;
        elsifs.push(Elsif {
            elsif_word,
            guard,
            then_word,
            body,
        })?;
    }
    Ok(elsifs)
}

/// `[ELSE stats]`
#[cycle(statements)]
fn maybe_else(parser: &mut Parser, alloc: Global) -> Result<Option<Else>, ParseFault>
    ensures { Gives (opt (ELSE · part stats)) (optional else_text) parser.old parser.new result }
{
    match parser.take(Word(Reserved::ElseWord)) {
        None => Ok(None),
        Some(else_word) => {
            let body = stats(parser, alloc)?;
            Ok(Some(Else { else_word, body }))
        }
    }
}

/// `WHILE expression DO stats {ELSIF expression DO stats} END`
#[cycle(statements)]
fn while_stat(parser: &mut Parser, alloc: Global) -> Result<Stat, ParseFault>
    ensures { Gives (opening WHILE (part expression · DO · part stats · many (ELSIF · part expression · DO · part stats) · END)) stat_text parser.old parser.new result }
{
    let while_word = parser.enter(Word(Reserved::WhileWord))?;
    let guard = expression(parser, alloc)?;
    let do_word = parser.expect(Word(Reserved::DoWord))?;
    let body = stats(parser, alloc)?;
    let elsifs = elsif_dos(parser, alloc)?;
    let end_word = parser.expect(Word(Reserved::EndWord))?;
    parser.leave();
    let held = Box::new(
        alloc,
        WhileStat {
            while_word,
            guard,
            do_word,
            body,
            elsifs,
            end_word,
        },
    )?;
    Ok(Stat::While(held))
}

/// `{ELSIF expression DO stats}`
#[cycle(statements)]
fn elsif_dos(parser: &mut Parser, alloc: Global) -> Result<Vec<ElsifDo>, ParseFault>
    ensures { Gives (many (ELSIF · part expression · DO · part stats)) (λ v. each elsif_do_text v.items) parser.old parser.new result }
{
    let mut elsifs = Vec::new(alloc);
    'rounds: while let Some(elsif_word) = parser.take(Word(Reserved::ElsifWord)) {
        let guard = expression(parser, alloc)?;
        let do_word = parser.expect(Word(Reserved::DoWord))?;
        let body = stats(parser, alloc)?;
        elsifs.push(ElsifDo {
            elsif_word,
            guard,
            do_word,
            body,
        })?;
    }
    Ok(elsifs)
}

/// `REPEAT stats UNTIL expression`
#[cycle(statements)]
fn repeat_stat(parser: &mut Parser, alloc: Global) -> Result<Stat, ParseFault>
    ensures { Gives (opening REPEAT (part stats · UNTIL · part expression)) stat_text parser.old parser.new result }
{
    let repeat_word = parser.enter(Word(Reserved::RepeatWord))?;
    let body = stats(parser, alloc)?;
    let until_word = parser.expect(Word(Reserved::UntilWord))?;
    let guard = expression(parser, alloc)?;
    parser.leave();
    let held = Box::new(
        alloc,
        RepeatStat {
            repeat_word,
            body,
            until_word,
            guard,
        },
    )?;
    Ok(Stat::Repeat(held))
}

/// `FOR ident ":=" expression TO expression [BY expression] DO stats END`
#[cycle(statements)]
fn for_stat(parser: &mut Parser, alloc: Global) -> Result<Stat, ParseFault>
    ensures { Gives (opening FOR (ident · becomes · part expression · TO · part expression · opt (BY · part expression) · DO
        · part stats · END)) stat_text parser.old parser.new result }
{
    let for_word = parser.enter(Word(Reserved::ForWord))?;
    let variable = parser.expect(Terminal::Ident)?;
    let becomes = parser.expect(Mark(Delimiter::Becomes))?;
    let from = expression(parser, alloc)?;
    let to_word = parser.expect(Word(Reserved::ToWord))?;
    let to = expression(parser, alloc)?;
    let by = maybe_by(parser, alloc)?;
    let do_word = parser.expect(Word(Reserved::DoWord))?;
    let body = stats(parser, alloc)?;
    let end_word = parser.expect(Word(Reserved::EndWord))?;
    parser.leave();
    let held = Box::new(
        alloc,
        ForStat {
            for_word,
            variable,
            becomes,
            from,
            to_word,
            to,
            by,
            do_word,
            body,
            end_word,
        },
    )?;
    Ok(Stat::For(held))
}

fn maybe_by(parser: &mut Parser, alloc: Global) -> Result<Option<By>, ParseFault>
    ensures { Gives (opt (BY · part expression)) (optional by_text) parser.old parser.new result }
{
    match parser.take(Word(Reserved::ByWord)) {
        None => Ok(None),
        Some(by_word) => {
            let step = expression(parser, alloc)?;
            Ok(Some(By { by_word, step }))
        }
    }
}

/// `CASE expression OF case {"|" case} END`
#[cycle(statements)]
fn case_stat(parser: &mut Parser, alloc: Global) -> Result<Stat, ParseFault>
    ensures { Gives (opening CASE (part expression · OF · part case · many (bar · part case) · END)) stat_text parser.old parser.new result }
{
    let case_word = parser.enter(Word(Reserved::CaseWord))?;
    let selector = expression(parser, alloc)?;
    let of_word = parser.expect(Word(Reserved::OfWord))?;
    let first = case(parser, alloc)?;
    let more = more_cases(parser, alloc)?;
    let end_word = parser.expect(Word(Reserved::EndWord))?;
    parser.leave();
    let held = Box::new(
        alloc,
        CaseStat {
            case_word,
            selector,
            of_word,
            first,
            more,
            end_word,
        },
    )?;
    Ok(Stat::Case(held))
}

/// `{"|" case}`
#[cycle(statements)]
fn more_cases(parser: &mut Parser, alloc: Global) -> Result<Vec<NextCase>, ParseFault>
    ensures { Gives (many (bar · part case)) (λ v. each next_case_text v.items) parser.old parser.new result }
{
    let mut more = Vec::new(alloc);
    'rounds: while let Some(bar) = parser.take(Mark(Delimiter::Bar)) {
        let next = case(parser, alloc)?;
        more.push(NextCase { bar, case: next })?;
    }
    Ok(more)
}

/// `[range {"," range} ":" stats]`
#[cycle(statements)]
fn case(parser: &mut Parser, alloc: Global) -> Result<Case, ParseFault>
    ensures { Gives (part case) case_text parser.old parser.new result }
{
    if begins_label(parser) {
        let first = range(parser)?;
        let more = more_ranges(parser, alloc)?;
        let colon = parser.expect(Mark(Delimiter::Colon))?;
        let body = stats(parser, alloc)?;
        let held = Box::new(
            alloc,
            CasePart {
                first,
                more,
                colon,
                body,
            },
        )?;
        Ok(Case { part: Some(held) })
    } else {
        Ok(Case { part: None })
    }
}

/// `[BEGIN stats]`
pub fn maybe_body(parser: &mut Parser, alloc: Global) -> Result<Option<Body>, ParseFault>
    ensures { Gives (opt (BEGIN · part stats)) (optional body_text) parser.old parser.new result }
{
    match parser.take(Word(Reserved::BeginWord)) {
        None => Ok(None),
        Some(begin_word) => {
            let stats = stats(parser, alloc)?;
            Ok(Some(Body { begin_word, stats }))
        }
    }
}
