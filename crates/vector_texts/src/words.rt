//! A line as words.

use outside::Memory;
use std::alloc::{AllocError, Global};
use std::str::SplitWhitespace;

/// The words of a line; what is read goes on behind a word that is looked at.
#[derive(Drop)]
pub struct Words<'a> {
    words: SplitWhitespace<'a>,
    next: Option<&'a str>,
}

impl<'a> Words<'a> {
    pub fn new(line: &'a str) -> Words<'a> {
        let mut words = line.split_whitespace();
        let next = words.next();
        Words { words, next }
    }

    /// Takes the next word if it is this one.
    pub fn takes(&mut self, word: &str) -> bool {
        let is = self.next == Some(word);
        if is {
            self.next = self.words.next();
        }
        is
    }

    /// Takes the next word; an empty one behind the last.
    pub fn word(&mut self) -> &'a str {
        let word = self.next.unwrap_or("");
        self.next = self.words.next();
        word
    }

    /// Takes a number; none where the next word is another.
    pub fn number(&mut self) -> Option<u64> {
        let number = self.next?.parse::<u64>().ok()?;
        self.next = self.words.next();
        Some(number)
    }

    /// Takes a number, or `-` for none.
    pub fn optional(&mut self) -> Option<u32> {
        if self.takes("-") { None } else { self.small() }
    }

    pub fn small(&mut self) -> Option<u32> {
        u32::try_from(self.number()?).ok()
    }

    /// Takes the next number, or 0.
    pub fn or_zero(&mut self) -> u32 {
        self.small().unwrap_or(0)
    }

    /// Takes numbers as long as there are some.
    pub fn numbers(&mut self, alloc: Global) -> Result<Vec<u32>, Memory> {
        let mut numbers = Vec::new(alloc);
        for _ in 0..u32::MAX {
            match self.small() {
                Some(number) => numbers.push(number)?,
                None => break,
            }
        }
        Ok(numbers)
    }
}

/// Adds a number, or `-` for none, behind a blank.
pub fn push_optional(text: &mut String, number: Option<u32>) -> Result<(), AllocError> {
    match number {
        Some(number) => write!(text, " {number}"),
        None => text.push_str(" -"),
    }
}

/// Adds numbers, each behind a blank.
pub fn push_numbers(text: &mut String, numbers: &[u32]) -> Result<(), AllocError> {
    for number in numbers {
        write!(text, " {number}")?;
    }
    Ok(())
}
