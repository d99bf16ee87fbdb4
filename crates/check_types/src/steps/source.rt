//! A text and its symbols.

ghost use Rattle.ob_judge.specs.Scopes.{Source as TheSource};

use crate::steps::fault::CheckFault;
use crate::steps::parts::{part, part_length};
use ob_symbol::{Kind, Symbol};
use std::marker::Model;

/// A module's text and its symbols. A symbol that isn't there is read as a name without characters.
#[derive(Drop)]
pub struct Source<'a> {
    bytes: &'a [u8],
    symbols: &'a [Symbol],
}

impl<'a> Model for Source<'a> {
    ghost Value = { TheSource };

    ghost view = { λ s. record { bytes = s.bytes.now; symbols = s.symbols.now } };
}

impl<'a> Source<'a> {
    ghost use Rattle.std.specs.Prelude.{◌≡◌, length};
    ghost use Rattle.ob_judge.specs.Scopes.{symbol_at, place as place_of, spelled as bytes_of, characters as characters_of};

    /// A text with these symbols.
    pub fn new(bytes: &'a [u8], symbols: &'a [Symbol]) -> Source<'a>
        ensures { result ≡ record { bytes = bytes.now; symbols = symbols.now } }
    {
        Source { bytes, symbols }
    }

    /// How many symbols there are.
    pub fn count(&self) -> usize
        ensures { result ≡ length self.now.symbols }
    {
        self.symbols.len()
    }

    /// A symbol by its index.
    pub fn symbol(&self, i: u32) -> Symbol
        ensures { result ≡ symbol_at self.now i }
    {
        match self.symbols.get(i as usize) {
            Some(symbol) => *symbol,
            None => Symbol {
                kind: Kind::Ident,
                from: 0,
                to: 0,
            },
        }
    }

    /// The byte where a symbol begins.
    pub fn place(&self, i: u32) -> u32
        ensures { result ≡ place_of self.now i }
    {
        self.symbol(i).from
    }

    /// A rule broken at a symbol.
    pub fn fault(&self, number: u8, i: u32) -> CheckFault
        ensures { result ≡ CheckFault.Fault number (place_of self.now i) }
    {
        CheckFault::Fault {
            number,
            at: self.place(i),
        }
    }

    /// The bytes of a symbol.
    pub fn spelled(&self, i: u32) -> &'a [u8]
        ensures { result.now ≡ bytes_of self.now i }
    {
        let symbol = self.symbol(i);
        part(self.bytes, symbol.from, symbol.to)
    }

    /// The characters of a string, without its quotes.
    pub fn characters(&self, i: u32) -> &'a [u8]
        ensures { result.now ≡ characters_of self.now i }
    {
        let symbol = self.symbol(i);
        match symbol.from.checked_add(1) {
            Some(from) => part(self.bytes, from, symbol.to.saturating_sub(1)),
            None => &[],
        }
    }

    /// How many characters a string has.
    pub fn characters_count(&self, i: u32) -> u32
        ensures { result ≡ length (characters_of self.now i) }
    {
        let symbol = self.symbol(i);
        match symbol.from.checked_add(1) {
            Some(from) => part_length(self.bytes, from, symbol.to.saturating_sub(1)),
            None => 0,
        }
    }
}
