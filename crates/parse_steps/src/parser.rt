//! Where a parser is, and its steps at one symbol.

ghost use Rattle.std.specs.Prelude.{◌≡◌, ◌+◌, ◌-◌, ◌<◌, ◌≤◌, suc, [], ◌∷◌, length, drop, map, OnOk, IsTrue};
ghost use Rattle.ob_grammar.specs.Terminals.{number_of, numbers};
ghost use Rattle.ob_grammar.specs.Grammar.{t};
ghost use Rattle.ob_grammar.specs.Reading.{is_next};
ghost use Rattle.ob_syntax.specs.Leaves.{leaf};
ghost use Rattle.parse_steps.specs.Parsing.{State, Gives, Takes, Enters, first_of, is_none};

use crate::fault::ParseFault;
use ob_grammar::{DEPTH_LIMIT, Terminal};
use ob_symbol::Symbol;
use std::marker::Model;

/// A parser: the symbols, the index of the next one, the number of the terminal that it is, and how many constructs
/// are open.
#[derive(Drop)]
pub struct Parser<'a> {
    symbols: &'a [Symbol],
    next: usize,
    ahead: Option<u8>,
    depth: u32,
}

impl<'a> Model for Parser<'a> {
    ghost Value = { State };

    ghost view = { λ p. record { rest = drop p.next (numbers p.symbols.now); at = p.next; level = p.depth } };

    ghost invariant = { λ p. (p.next ≤ length p.symbols.now) × (length p.symbols.now ≤ 1048576) × (p.ahead ≡ first_of (drop p.next (numbers p.symbols.now))) };
}

/// The number of the terminal with this index.
fn number_at(symbols: &[Symbol], index: usize) -> Option<u8>
    ensures { result ≡ first_of (drop index (numbers symbols.now)) }
{
    match symbols.get(index) {
        Some(symbol) => Some(Terminal::of(&symbol.kind).number()),
        None => None,
    }
}

impl<'a> Parser<'a> {
    /// A parser at the first symbol.
    pub fn new(symbols: &'a [Symbol]) -> Self
        requires { length symbols.now ≤ 1048576 }
        ensures { result ≡ record { rest = numbers symbols.now; at = 0; level = 0 } }
    {
        let ahead = number_at(symbols, 0);
        Parser {
            symbols,
            next: 0,
            ahead,
            depth: 0,
        }
    }

    /// Whether the next symbol is this terminal.
    #[inline]
    pub fn is_at(&self, terminal: Terminal) -> bool
        ensures tells { result ≡ is_next (number_of terminal ∷ []) self.now.rest }
        ensures some { IsTrue result → 0 < length self.now.rest }
    {
        match self.ahead {
            Some(number) => terminal.number() == number,
            None => false,
        }
    }

    /// Whether the next symbol is one of these terminals.
    #[inline]
    pub fn is_at_any(&self, terminals: &[Terminal]) -> bool
        ensures { result ≡ is_next (map number_of terminals.now) self.now.rest }
    {
        'rounds: for terminal in terminals {
            if self.is_at(*terminal) {
                return true;
            }
        }
        false
    }

    /// Whether no symbol is left.
    pub fn is_at_end(&self) -> bool
        ensures { result ≡ is_none self.now.rest }
    {
        self.next == self.symbols.len()
    }

    /// The index of the next symbol, or the number of all symbols.
    pub fn place(&self) -> u32
        ensures { result ≡ self.now.at }
    {
        self.next as u32
    }

    /// Goes past the next symbol, and answers its index.
    pub fn advance(&mut self) -> u32
        requires { 0 < length self.old.rest }
        ensures at { result ≡ self.old.at }
        ensures rest { self.new ≡ record { rest = drop 1 self.old.rest; at = suc self.old.at; level = self.old.level } }
    {
        let index = self.next as u32;
        self.ahead = number_at(self.symbols, self.next + 1);
        self.next += 1;
        index
    }

    /// Takes the next symbol if it is this terminal, and answers its index.
    #[inline]
    pub fn take(&mut self, terminal: Terminal) -> Option<u32>
        ensures { Takes (t terminal) (leaf (t terminal)) self.old self.new result }
    {
        if self.is_at(terminal) {
            let index = self.advance();
            Some(index)
        } else {
            None
        }
    }

    /// Takes this terminal, and answers its index; where another stands, that is the fault.
    #[inline]
    pub fn expect(&mut self, terminal: Terminal) -> Result<u32, ParseFault>
        ensures gives { Gives (t terminal) (leaf (t terminal)) self.old self.new result }
        ensures next { OnOk result (self.old.at < self.new.at) }
    {
        match self.take(terminal) {
            Some(index) => Ok(index),
            None => Err(ParseFault::Syntax { at: self.place() }),
        }
    }

    /// Takes the terminal that opens a construct, unless as many as may be are open.
    pub fn enter(&mut self, terminal: Terminal) -> Result<u32, ParseFault>
        ensures { Enters (number_of terminal) self.old self.new result }
    {
        if self.is_at(terminal) {
            if self.depth >= DEPTH_LIMIT {
                return Err(ParseFault::TooDeep { at: self.place() });
            }
            let index = self.advance();
            self.depth += 1;
            Ok(index)
        } else {
            Err(ParseFault::Syntax { at: self.place() })
        }
    }

    /// Ends the construct that was entered last.
    pub fn leave(&mut self)
        requires { 0 < self.old.level }
        ensures { self.new ≡ record { rest = self.old.rest; at = self.old.at; level = self.old.level - 1 } }
    {
        self.depth -= 1;
    }
}
