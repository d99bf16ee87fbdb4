//! Declarations.

ghost use Rattle.std.specs.Prelude.{◌<◌, OnOk};
ghost use Rattle.ob_grammar.specs.Grammar.{part, opt, many, ◌·◌, CONST, RETURN, TYPE, VAR, colon, decls, equal, expression, identdef, idents, procedure, semicolon, type};
ghost use Rattle.ob_syntax.specs.Leaves.{each, optional};
ghost use Rattle.ob_syntax.specs.DeclarationText.{const_decl_text, consts_text, decls_text, procedure_decl_text, procedure_text, returned_text, type_decl_text, types_text, var_decl_text, vars_text};
ghost use Rattle.parse_steps.specs.Parsing.{Gives};

use crate::formals::maybe_formals;
use crate::statements::maybe_body;
use crate::types::type_tree;
use ob_grammar::Terminal;
use ob_grammar::Terminal::{Mark, Word};
use ob_symbol::{Delimiter, Reserved};
use ob_syntax::declarations::{
    ConstDecl, Consts, Decls, Procedure, ProcedureDecl, Returned, TypeDecl, Types, VarDecl, Vars,
};
use parse_expressions::expression;
use parse_expressions::names::{identdef, idents};
use parse_steps::{ParseFault, Parser};
use std::alloc::Global;

/// `[CONST ..] [TYPE ..] [VAR ..] {procedure ";"}`
#[cycle(declarations)]
pub fn decls(parser: &mut Parser, alloc: Global) -> Result<Decls, ParseFault>
    ensures { Gives (part decls) decls_text parser.old parser.new result }
{
    let consts = maybe_consts(parser, alloc)?;
    let types = maybe_types(parser, alloc)?;
    let vars = maybe_vars(parser, alloc)?;
    let procedures = procedures(parser, alloc)?;
    Ok(Decls {
        consts,
        types,
        vars,
        procedures,
    })
}

/// `[CONST {identdef "=" expression ";"}]`
fn maybe_consts(parser: &mut Parser, alloc: Global) -> Result<Option<Consts>, ParseFault>
    ensures { Gives (opt (CONST · many (part identdef · equal · part expression · semicolon))) (optional consts_text) parser.old parser.new result }
{
    match parser.take(Word(Reserved::ConstWord)) {
        None => Ok(None),
        Some(const_word) => {
            let each = each_const_decl(parser, alloc)?;
            Ok(Some(Consts { const_word, each }))
        }
    }
}

/// `{identdef "=" expression ";"}`
fn each_const_decl(parser: &mut Parser, alloc: Global) -> Result<Vec<ConstDecl>, ParseFault>
    ensures { Gives (many (part identdef · equal · part expression · semicolon)) (λ v. each const_decl_text v.items) parser.old parser.new result }
{
    let mut each = Vec::new(alloc);
    'rounds: while parser.is_at(Terminal::Ident) {
        let next = const_decl(parser, alloc)?;
        each.push(next)?;
    }
    Ok(each)
}

/// `identdef "=" expression ";"`
fn const_decl(parser: &mut Parser, alloc: Global) -> Result<ConstDecl, ParseFault>
    ensures gives { Gives (part identdef · equal · part expression · semicolon) const_decl_text parser.old parser.new result }
    ensures next { OnOk result (parser.old.at < parser.new.at) }
{
    let name = identdef(parser)?;
    let equal = parser.expect(Mark(Delimiter::Equal))?;
    let value = expression(parser, alloc)?;
    let semicolon = parser.expect(Mark(Delimiter::Semicolon))?;
    Ok(ConstDecl {
        name,
        equal,
        value,
        semicolon,
    })
}

/// `[TYPE {identdef "=" type ";"}]`
fn maybe_types(parser: &mut Parser, alloc: Global) -> Result<Option<Types>, ParseFault>
    ensures { Gives (opt (TYPE · many (part identdef · equal · part type · semicolon))) (optional types_text) parser.old parser.new result }
{
    match parser.take(Word(Reserved::TypeWord)) {
        None => Ok(None),
        Some(type_word) => {
            let each = each_type_decl(parser, alloc)?;
            Ok(Some(Types { type_word, each }))
        }
    }
}

/// `{identdef "=" type ";"}`
fn each_type_decl(parser: &mut Parser, alloc: Global) -> Result<Vec<TypeDecl>, ParseFault>
    ensures { Gives (many (part identdef · equal · part type · semicolon)) (λ v. each type_decl_text v.items) parser.old parser.new result }
{
    let mut each = Vec::new(alloc);
    'rounds: while parser.is_at(Terminal::Ident) {
        let next = type_decl(parser, alloc)?;
        each.push(next)?;
    }
    Ok(each)
}

/// `identdef "=" type ";"`
fn type_decl(parser: &mut Parser, alloc: Global) -> Result<TypeDecl, ParseFault>
    ensures gives { Gives (part identdef · equal · part type · semicolon) type_decl_text parser.old parser.new result }
    ensures next { OnOk result (parser.old.at < parser.new.at) }
{
    let name = identdef(parser)?;
    let equal = parser.expect(Mark(Delimiter::Equal))?;
    let is = type_tree(parser, alloc)?;
    let semicolon = parser.expect(Mark(Delimiter::Semicolon))?;
    Ok(TypeDecl {
        name,
        equal,
        is,
        semicolon,
    })
}

/// `[VAR {idents ":" type ";"}]`
fn maybe_vars(parser: &mut Parser, alloc: Global) -> Result<Option<Vars>, ParseFault>
    ensures { Gives (opt (VAR · many (part idents · colon · part type · semicolon))) (optional vars_text) parser.old parser.new result }
{
    match parser.take(Word(Reserved::VarWord)) {
        None => Ok(None),
        Some(var_word) => {
            let each = each_var_decl(parser, alloc)?;
            Ok(Some(Vars { var_word, each }))
        }
    }
}

/// `{idents ":" type ";"}`
fn each_var_decl(parser: &mut Parser, alloc: Global) -> Result<Vec<VarDecl>, ParseFault>
    ensures { Gives (many (part idents · colon · part type · semicolon)) (λ v. each var_decl_text v.items) parser.old parser.new result }
{
    let mut each = Vec::new(alloc);
    'rounds: while parser.is_at(Terminal::Ident) {
        let next = var_decl(parser, alloc)?;
        each.push(next)?;
    }
    Ok(each)
}

/// `idents ":" type ";"`
fn var_decl(parser: &mut Parser, alloc: Global) -> Result<VarDecl, ParseFault>
    ensures gives { Gives (part idents · colon · part type · semicolon) var_decl_text parser.old parser.new result }
    ensures next { OnOk result (parser.old.at < parser.new.at) }
{
    let names = idents(parser, alloc)?;
    let colon = parser.expect(Mark(Delimiter::Colon))?;
    let of = type_tree(parser, alloc)?;
    let semicolon = parser.expect(Mark(Delimiter::Semicolon))?;
    Ok(VarDecl {
        names,
        colon,
        of,
        semicolon,
    })
}

/// `{procedure ";"}`
#[cycle(declarations)]
fn procedures(parser: &mut Parser, alloc: Global) -> Result<Vec<ProcedureDecl>, ParseFault>
    ensures { Gives (many (part procedure · semicolon)) (λ v. each procedure_decl_text v.items) parser.old parser.new result }
{
    let mut procedures = Vec::new(alloc);
    'rounds: while parser.is_at(Word(Reserved::ProcedureWord)) {
        let procedure = procedure(parser, alloc)?;
        let semicolon = parser.expect(Mark(Delimiter::Semicolon))?;
        procedures.push(ProcedureDecl {
            procedure,
            semicolon,
        })?;
    }
    Ok(procedures)
}

/// `PROCEDURE identdef [formals] ";" decls [BEGIN stats] [RETURN expression] END ident`
#[cycle(declarations)]
fn procedure(parser: &mut Parser, alloc: Global) -> Result<Procedure, ParseFault>
    ensures gives { Gives (part procedure) procedure_text parser.old parser.new result }
    ensures next { OnOk result (parser.old.at < parser.new.at) }
{
    let procedure_word = parser.enter(Word(Reserved::ProcedureWord))?;
    let name = identdef(parser)?;
    let formals = maybe_formals(parser, alloc)?;
    let semicolon = parser.expect(Mark(Delimiter::Semicolon))?;
    let decls = decls(parser, alloc)?;
    let body = maybe_body(parser, alloc)?;
    let returned = maybe_returned(parser, alloc)?;
    let end_word = parser.expect(Word(Reserved::EndWord))?;
    let end_name = parser.expect(Terminal::Ident)?;
    parser.leave();
    Ok(Procedure {
        procedure_word,
        name,
        formals,
        semicolon,
        decls,
        body,
        returned,
        end_word,
        end_name,
    })
}

fn maybe_returned(parser: &mut Parser, alloc: Global) -> Result<Option<Returned>, ParseFault>
    ensures { Gives (opt (RETURN · part expression)) (optional returned_text) parser.old parser.new result }
{
    match parser.take(Word(Reserved::ReturnWord)) {
        None => Ok(None),
        Some(return_word) => {
            let value = expression(parser, alloc)?;
            Ok(Some(Returned { return_word, value }))
        }
    }
}
