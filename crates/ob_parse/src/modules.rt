//! Modules.

ghost use Rattle.ob_grammar.specs.Grammar.{part, opt, many, ◌·◌, IMPORT, becomes, comma, ident, import, module_, semicolon};
ghost use Rattle.ob_syntax.specs.Leaves.{each, optional};
ghost use Rattle.ob_syntax.specs.ModuleText.{import_text, imported_name_text, imports_text, module_text, next_import_text};
ghost use Rattle.parse_steps.specs.Parsing.{Gives};

use crate::declarations::decls;
use crate::statements::maybe_body;
use ob_grammar::Terminal;
use ob_grammar::Terminal::{Mark, Word};
use ob_symbol::{Delimiter, Reserved};
use ob_syntax::modules::{Import, ImportedName, Imports, Module, NextImport};
use parse_steps::{ParseFault, Parser};
use std::alloc::Global;

/// `MODULE ident ";" [IMPORT import {"," import} ";"] decls [BEGIN stats] END ident "."`
pub fn module(parser: &mut Parser, alloc: Global) -> Result<Module, ParseFault>
    ensures { Gives (part module_) module_text parser.old parser.new result }
{
    let module_word = parser.expect(Word(Reserved::ModuleWord))?;
    let name = parser.expect(Terminal::Ident)?;
    let semicolon = parser.expect(Mark(Delimiter::Semicolon))?;
    let imports = maybe_imports(parser, alloc)?;
    let decls = decls(parser, alloc)?;
    let body = maybe_body(parser, alloc)?;
    let end_word = parser.expect(Word(Reserved::EndWord))?;
    let end_name = parser.expect(Terminal::Ident)?;
    let period = parser.expect(Mark(Delimiter::Period))?;
    Ok(Module {
        module_word,
        name,
        semicolon,
        imports,
        decls,
        body,
        end_word,
        end_name,
        period,
    })
}

/// `[IMPORT import {"," import} ";"]`
fn maybe_imports(parser: &mut Parser, alloc: Global) -> Result<Option<Imports>, ParseFault>
    ensures { Gives (opt (IMPORT · part import · many (comma · part import) · semicolon)) (optional imports_text) parser.old parser.new result }
{
    match parser.take(Word(Reserved::ImportWord)) {
        None => Ok(None),
        Some(import_word) => {
            let first = import(parser)?;
            let more = more_imports(parser, alloc)?;
            let semicolon = parser.expect(Mark(Delimiter::Semicolon))?;
            Ok(Some(Imports {
                import_word,
                first,
                more,
                semicolon,
            }))
        }
    }
}

/// `{"," import}`
fn more_imports(parser: &mut Parser, alloc: Global) -> Result<Vec<NextImport>, ParseFault>
    ensures { Gives (many (comma · part import)) (λ v. each next_import_text v.items) parser.old parser.new result }
{
    let mut more = Vec::new(alloc);
    'rounds: while let Some(comma) = parser.take(Mark(Delimiter::Comma)) {
        let next = import(parser)?;
        more.push(NextImport {
            comma,
            import: next,
        })?;
    }
    Ok(more)
}

/// `ident [":=" ident]`
fn import(parser: &mut Parser) -> Result<Import, ParseFault>
    ensures { Gives (part import) import_text parser.old parser.new result }
{
    let name = parser.expect(Terminal::Ident)?;
    let of = maybe_imported_name(parser)?;
    Ok(Import { name, of })
}

fn maybe_imported_name(parser: &mut Parser) -> Result<Option<ImportedName>, ParseFault>
    ensures { Gives (opt (becomes · ident)) (optional imported_name_text) parser.old parser.new result }
{
    match parser.take(Mark(Delimiter::Becomes)) {
        None => Ok(None),
        Some(becomes) => {
            let name = parser.expect(Terminal::Ident)?;
            Ok(Some(ImportedName { becomes, name }))
        }
    }
}
