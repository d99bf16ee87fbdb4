//! Types.

ghost use Rattle.ob_grammar.specs.Grammar.{opening, part, opt, many, ◌·◌, ARRAY, END, OF, POINTER, PROCEDURE, RECORD, TO, comma, expression, fields, formals, left_paren, qualident, right_paren, semicolon, type};
ghost use Rattle.ob_syntax.specs.Leaves.{each, optional};
ghost use Rattle.ob_syntax.specs.TypeText.{array_type_text, base_text, fields_text, next_fields_text, pointer_type_text, procedure_type_text, record_type_text, type_tree_text};
ghost use Rattle.parse_steps.specs.Parsing.{Gives};

use crate::formals::maybe_formals;
use ob_grammar::Terminal;
use ob_grammar::Terminal::{Mark, Word};
use ob_symbol::{Delimiter, Reserved};
use ob_syntax::types::{
    ArrayType, Base, Fields, NextFields, PointerType, ProcedureType, RecordType, TypeTree,
};
use parse_expressions::names::{idents, qualident};
use parse_expressions::{expression, more_expressions};
use parse_steps::{ParseFault, Parser};
use std::alloc::Global;

/// `qualident | ARRAY .. | RECORD .. | POINTER .. | PROCEDURE ..`
#[cycle(types)]
pub fn type_tree(parser: &mut Parser, alloc: Global) -> Result<TypeTree, ParseFault>
    ensures { Gives (part type) type_tree_text parser.old parser.new result }
{
    if parser.is_at(Terminal::Ident) {
        let name = qualident(parser)?;
        Ok(TypeTree::Named(name))
    } else if parser.is_at(Word(Reserved::ArrayWord)) {
        let array = array_type(parser, alloc)?;
        Ok(TypeTree::Array(array))
    } else if parser.is_at(Word(Reserved::RecordWord)) {
        let fields = record_type(parser, alloc)?;
        Ok(TypeTree::Record(fields))
    } else if parser.is_at(Word(Reserved::PointerWord)) {
        let pointer = pointer_type(parser, alloc)?;
        Ok(TypeTree::Pointer(pointer))
    } else {
        let procedure = procedure_type(parser, alloc)?;
        Ok(TypeTree::Procedure(procedure))
    }
}

/// `ARRAY expression {"," expression} OF type`
#[cycle(types)]
fn array_type(parser: &mut Parser, alloc: Global) -> Result<ArrayType, ParseFault>
    ensures { Gives (opening ARRAY (part expression · many (comma · part expression) · OF · part type)) array_type_text parser.old parser.new result }
{
    let array_word = parser.enter(Word(Reserved::ArrayWord))?;
    let first = expression(parser, alloc)?;
    let more = more_expressions(parser, alloc)?;
    let of_word = parser.expect(Word(Reserved::OfWord))?;
    let of = type_tree(parser, alloc)?;
    parser.leave();
    let element = Box::new(alloc, of)?;
    Ok(ArrayType {
        array_word,
        first,
        more,
        of_word,
        element,
    })
}

/// `RECORD ["(" qualident ")"] [fields] {";" [fields]} END`
#[cycle(types)]
fn record_type(parser: &mut Parser, alloc: Global) -> Result<RecordType, ParseFault>
    ensures { Gives (opening RECORD (opt (left_paren · part qualident · right_paren) · opt (part fields)
        · many (semicolon · opt (part fields)) · END)) record_type_text parser.old parser.new result }
{
    let record_word = parser.enter(Word(Reserved::RecordWord))?;
    let base = base(parser)?;
    let first = maybe_fields(parser, alloc)?;
    let more = more_fields(parser, alloc)?;
    let end_word = parser.expect(Word(Reserved::EndWord))?;
    parser.leave();
    Ok(RecordType {
        record_word,
        base,
        first,
        more,
        end_word,
    })
}

fn base(parser: &mut Parser) -> Result<Option<Base>, ParseFault>
    ensures { Gives (opt (left_paren · part qualident · right_paren)) (optional base_text) parser.old parser.new result }
{
    match parser.take(Mark(Delimiter::LeftParen)) {
        None => Ok(None),
        Some(left_paren) => {
            let name = qualident(parser)?;
            let right_paren = parser.expect(Mark(Delimiter::RightParen))?;
            Ok(Some(Base {
                left_paren,
                name,
                right_paren,
            }))
        }
    }
}

#[cycle(types)]
fn maybe_fields(parser: &mut Parser, alloc: Global) -> Result<Option<Fields>, ParseFault>
    ensures { Gives (opt (part fields)) (optional fields_text) parser.old parser.new result }
{
    if parser.is_at(Terminal::Ident) {
        let fields = fields(parser, alloc)?;
        Ok(Some(fields))
    } else {
        Ok(None)
    }
}

/// `{";" [fields]}`
#[cycle(types)]
fn more_fields(parser: &mut Parser, alloc: Global) -> Result<Vec<NextFields>, ParseFault>
    ensures { Gives (many (semicolon · opt (part fields))) (λ v. each next_fields_text v.items) parser.old parser.new result }
{
    let mut more = Vec::new(alloc);
    'rounds: while let Some(semicolon) = parser.take(Mark(Delimiter::Semicolon)) {
        let next = maybe_fields(parser, alloc)?;
        more.push(NextFields {
            semicolon,
            fields: next,
        })?;
    }
    Ok(more)
}

/// `idents ":" type`
#[cycle(types)]
fn fields(parser: &mut Parser, alloc: Global) -> Result<Fields, ParseFault>
    ensures { Gives (part fields) fields_text parser.old parser.new result }
{
    let names = idents(parser, alloc)?;
    let colon = parser.expect(Mark(Delimiter::Colon))?;
    let each = type_tree(parser, alloc)?;
    let of = Box::new(alloc, each)?;
    Ok(Fields { names, colon, of })
}

/// `POINTER TO type`
#[cycle(types)]
fn pointer_type(parser: &mut Parser, alloc: Global) -> Result<PointerType, ParseFault>
    ensures { Gives (opening POINTER (TO · part type)) pointer_type_text parser.old parser.new result }
{
    let pointer_word = parser.enter(Word(Reserved::PointerWord))?;
    let to_word = parser.expect(Word(Reserved::ToWord))?;
    let of = type_tree(parser, alloc)?;
    parser.leave();
    let base = Box::new(alloc, of)?;
    Ok(PointerType {
        pointer_word,
        to_word,
        base,
    })
}

/// `PROCEDURE [formals]`
fn procedure_type(parser: &mut Parser, alloc: Global) -> Result<ProcedureType, ParseFault>
    ensures { Gives (opening PROCEDURE (opt (part formals))) procedure_type_text parser.old parser.new result }
{
    let procedure_word = parser.enter(Word(Reserved::ProcedureWord))?;
    let formals = maybe_formals(parser, alloc)?;
    parser.leave();
    Ok(ProcedureType {
        procedure_word,
        formals,
    })
}
