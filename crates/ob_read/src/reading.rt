//! The text of a module.

ghost use Rattle.std.specs.Prelude.{◌≡◌, ◌≤◌, List, length, zero, IfOk, IfErr};
ghost use Rattle.ob_symbol.specs.declared.symbol.Symbol.{Symbol as TheSymbol};
ghost use Rattle.ob_scan.specs.Scans.{Scans, Done};
ghost use Rattle.ob_grammar.specs.Terminals.{numbers};
ghost use Rattle.ob_grammar.specs.Trees.{Token, terminals};
ghost use Rattle.ob_grammar.specs.Modules.{IsModule, Shallow};
ghost use Rattle.ob_parse.specs.Judged.{IsTree};
ghost use Rattle.ob_read.specs.Texts.{most_bytes, place_in, IsModuleText, IsFault};

use crate::fault::TextFault;
use ob_parse::{ParseFault, parse};
use ob_scan::{ScanFault, scan};
use ob_symbol::Symbol;
use ob_syntax::modules::Module;
use std::alloc::Global;

/// The most bytes that a text has.
pub const MOST_BYTES: usize = 1_048_576;

/// A module's symbols, with their places in its text, and its tree, whose terminals are the symbols by their indices.
#[derive(Drop)]
pub struct ModuleText {
    pub symbols: Vec<Symbol>,
    pub tree: Module,
}

/// The symbols and the tree of a module's text, or the first rule that the text breaks. (Oberon-07 report, section 3, and its
/// appendix: The Syntax of Oberon.)
///
/// Measured, and not proved: the time is proportional to the number of bytes.
pub fn read_module(alloc: Global, bytes: &[u8]) -> Result<ModuleText, TextFault>
    ensures text { IfOk result (λ text. IsModuleText bytes.now text.symbols.items text.tree) }
    ensures fault { IfErr result (λ fault. IsFault bytes.now fault) }
    ensures only { (symbols : List TheSymbol) (v : List Token) → length bytes.now ≤ most_bytes → Scans zero bytes.now symbols Done
        → IsModule v → terminals v ≡ numbers symbols → Shallow v (length symbols) → IfErr result (λ fault. fault ≡ TextFault.Memory) }
{
    if bytes.len() > MOST_BYTES {
        return Err(TextFault::TooLong);
    }
    let symbols = symbols_of(alloc, bytes)?;
    match tree_of(alloc, bytes, symbols.as_slice()) {
        Ok(tree) => Ok(ModuleText { symbols, tree }),
        Err(fault) => Err(fault),
    }
}

// The symbols of a text.
fn symbols_of(alloc: Global, bytes: &[u8]) -> Result<Vec<Symbol>, TextFault>
    requires { length bytes.now ≤ most_bytes }
    ensures symbols { IfOk result (λ symbols. Scans zero bytes.now symbols.items Done) }
    ensures fault { IfErr result (λ fault. IsFault bytes.now fault) }
    ensures only { (symbols : List TheSymbol) → Scans zero bytes.now symbols Done → IfErr result (λ fault. fault ≡ TextFault.Memory) }
{
    match scan(alloc, bytes) {
        Ok(symbols) => Ok(symbols),
        Err(ScanFault::Fault { number, at }) => Err(TextFault::Fault { number, at }),
        Err(ScanFault::Memory) => Err(TextFault::Memory),
    }
}

// The tree of a text's symbols.
fn tree_of(alloc: Global, bytes: &[u8], symbols: &[Symbol]) -> Result<Module, TextFault>
    requires short { length bytes.now ≤ most_bytes }
    requires scanned { Scans zero bytes.now symbols.now Done }
    ensures tree { IfOk result (λ tree. IsTree (numbers symbols.now) tree) }
    ensures fault { IfErr result (λ fault. IsFault bytes.now fault) }
    ensures only { (v : List Token) → IsModule v → terminals v ≡ numbers symbols.now → Shallow v (length symbols.now)
        → IfErr result (λ fault. fault ≡ TextFault.Memory) }
{
    match parse(alloc, symbols) {
        Ok(tree) => Ok(tree),
        Err(ParseFault::Syntax { at }) => Err(TextFault::Fault {
            number: 20,
            at: place_of(bytes, symbols, at),
        }),
        Err(ParseFault::TooDeep { at }) => Err(TextFault::Fault {
            number: 21,
            at: place_of(bytes, symbols, at),
        }),
        Err(ParseFault::Memory) => Err(TextFault::Memory),
    }
}

// The byte where a symbol begins; behind the last symbol that is the text's end.
fn place_of(bytes: &[u8], symbols: &[Symbol], index: u32) -> u32
    requires { length bytes.now ≤ most_bytes }
    ensures { result ≡ place_in bytes.now symbols.now index }
{
    match symbols.get(index as usize) {
        Some(symbol) => symbol.from,
        None => bytes.len() as u32,
    }
}
