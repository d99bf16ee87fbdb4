//! The parser's call.

ghost use Rattle.std.specs.Prelude.{◌≡◌, ◌≤◌, List, length, IfOk, IfErr};
ghost use Rattle.ob_grammar.specs.Trees.{Token, terminals};
ghost use Rattle.ob_grammar.specs.Modules.{IsModule, Shallow};
ghost use Rattle.ob_grammar.specs.Terminals.{numbers};
ghost use Rattle.ob_parse.specs.Judged.{IsTree, IsFault, IsTaken};

use crate::modules::module;
use ob_symbol::Symbol;
use ob_syntax::modules::Module;
use parse_steps::{ParseFault, Parser};
use std::alloc::Global;

/// The tree of a module's symbols, or the first fault. (Oberon-07 report, appendix: The Syntax of Oberon.)
///
/// The tree's terminals are all symbols in order, each by its index and of the kind that the grammar asks there.
/// `Syntax` is at the length of the longest beginning that some module has too: at the first symbol that no module
/// has there, or at the end. `TooDeep` is at the symbol that opens the 101st construct. The earlier of the two
/// comes. Measured, and not proved: the time is linear in the number of symbols, and the stack holds 100 nested
/// constructs.
pub fn parse(alloc: Global, symbols: &[Symbol]) -> Result<Module, ParseFault>
    requires { length symbols.now ≤ 1048576 }
    ensures tree { IfOk result (λ m. IsTree (numbers symbols.now) m) }
    ensures fault { IfErr result (λ e. IsFault (numbers symbols.now) e) }
    ensures only { (v : List Token) → IsModule v → terminals v ≡ numbers symbols.now → Shallow v (length symbols.now) → IsTaken result }
{
    let mut parser = Parser::new(symbols);
    let module = module(&mut parser, alloc)?;
    if parser.is_at_end() {
        Ok(module)
    } else {
        Err(ParseFault::Syntax { at: parser.place() })
    }
}
