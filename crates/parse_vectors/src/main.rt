//! Parses each line of its input, the symbols of a module written as words, and prints what the parser answers.
//!
//! A line has its symbols between blanks: `ident`, `integer`, `char`, `string`, a reserved word or a delimiter. The
//! lines are small modules that have the whole grammar in them, nests of 100 and of 101 of each construct, a thousand
//! modules with a symbol or two changed, and modules of 1,048,576 symbols: `repeat N .. again` stands for N times the
//! words in it. The answers that are wanted come from another parser, written in Python from the grammar alone. Of a
//! tree it also looks whether its terminals are all symbols in order.
#![tactic(auto)]

mod words;

use ob_parse::{ParseFault, parse};
use ob_symbol::{Kind, Symbol};
use ob_syntax::modules::Module;
use ob_tree::text_symbols;
use outside::Memory;
use std::alloc::Global;
use std::io;
use std::io::{BufRead, BufReader};

/// The most symbols that the parser takes.
const MOST: usize = 1_048_576;

/// The symbols of a line, each at its index, and one past the most at most; words that are no symbols are left out.
fn symbols_of(alloc: Global, line: &str) -> Result<Vec<Symbol>, Memory> {
    let mut symbols = Vec::new(alloc);
    let mut start = 0;
    let mut times = 1;
    let mut words = line.split_whitespace();
    while let Some(word) = words.next() {
        match word {
            "repeat" => {
                start = symbols.len();
                times = words
                    .next()
                    .map_or(1, |count| count.parse::<usize>().unwrap_or(1));
            }
            "again" => {
                let end = symbols.len();
                for _ in 1..times {
                    repeat(&mut symbols, start, end)?;
                }
            }
            _ => {
                if let Some(kind) = words::kind_of(word) {
                    add(&mut symbols, kind)?;
                }
            }
        }
    }
    Ok(symbols)
}

/// Adds a symbol, unless there are too many already.
fn add(symbols: &mut Vec<Symbol>, kind: Kind) -> Result<(), Memory> {
    let at = symbols.len();
    if at <= MOST {
        let from = at as u32;
        symbols.push(Symbol {
            kind,
            from,
            to: from.wrapping_add(1),
        })?;
    }
    Ok(())
}

/// Adds the symbols from one index to another once more.
fn repeat(symbols: &mut Vec<Symbol>, start: usize, end: usize) -> Result<(), Memory> {
    for index in start..end {
        let found = symbols.get(index).map(|symbol| symbol.kind);
        if let Some(kind) = found {
            add(symbols, kind)?;
        }
    }
    Ok(())
}

/// Whether a tree's terminals are that many symbols in order.
fn has_all(alloc: Global, tree: &Module, count: usize) -> Result<bool, Memory> {
    let indices = text_symbols(alloc, tree)?;
    if indices.len() != count {
        return Ok(false);
    }
    for (place, index) in indices.iter().enumerate() {
        if *index as usize != place {
            return Ok(false);
        }
    }
    Ok(true)
}

/// The parser's answer about a line, in words.
fn answer(alloc: Global, line: &str) -> Result<String, Memory> {
    let symbols = symbols_of(alloc, line)?;
    let count = symbols.len();
    if count > MOST {
        return Ok(format!(in alloc; "too long")?);
    }
    let text = match parse(alloc, &symbols) {
        Ok(tree) => {
            if has_all(alloc, &tree, count)? {
                format!(in alloc; "ok {count}")
            } else {
                format!(in alloc; "wrong terminals")
            }
        }
        Err(ParseFault::Syntax { at }) => format!(in alloc; "syntax {at}"),
        Err(ParseFault::TooDeep { at }) => format!(in alloc; "too deep {at}"),
        Err(ParseFault::Memory) => return Err(Memory),
    };
    Ok(text?)
}

fn main(rt: HostRuntime) -> io::Result<()> {
    for line in BufReader::new(rt.alloc(), rt.reader())?.lines(rt.alloc()) {
        match answer(rt.alloc(), line?.as_str()) {
            Ok(text) => println!(rt; "{text}")?,
            Err(Memory) => println!(rt; "out of memory")?,
        }
    }
    Ok(())
}
