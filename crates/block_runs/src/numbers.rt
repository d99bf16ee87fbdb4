//! Lists of numbers.

ghost use Rattle.std.specs.Prelude.{◌≡◌, ℕ, List, [], ◌∷◌, ◌++◌, length, IfOk, OnOk, OnErr};

use smallvec::SmallVec;
use std::alloc::{AllocError, Global};
use std::marker::Model;

/// Values or blocks by their numbers, in order: up to four stay inline. Contracts see the list of them.
#[derive(Drop)]
pub struct Numbers {
    numbers: SmallVec<u32, 4>,
}

impl Model for Numbers {
    ghost Value = { List ℕ };

    ghost view = { λ s. s.numbers.items };
}

impl Numbers {
    /// No numbers; takes no memory.
    pub fn new(alloc: Global) -> Numbers
        ensures { result ≡ [] }
    {
        Numbers {
            numbers: SmallVec::new(alloc),
        }
    }

    /// These numbers; up to four take no memory.
    pub fn from_slice(alloc: Global, numbers: &[u32]) -> Result<Numbers, AllocError>
        ensures { IfOk result (λ list. list ≡ numbers.now) }
    {
        Ok(Numbers {
            numbers: SmallVec::from_slice(alloc, numbers)?,
        })
    }

    /// Adds a number at the end.
    pub fn push(&mut self, number: u32) -> Result<(), AllocError>
        ensures ok { OnOk result (self.new ≡ self.old ++ number ∷ []) }
        ensures err { OnErr result (self.new ≡ self.old) }
    {
        self.numbers.push(number)?;
        Ok(())
    }

    /// The numbers, lent.
    pub fn as_slice(&self) -> &[u32]
        ensures { result.now ≡ self.now }
    {
        self.numbers.as_slice()
    }

    /// How many there are.
    pub fn len(&self) -> usize
        ensures { result ≡ length self.now }
    {
        self.numbers.len()
    }
}
