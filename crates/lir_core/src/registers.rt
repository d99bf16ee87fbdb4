//! Lists of registers.

ghost use Rattle.std.specs.Prelude.{◌≡◌, [], ◌∷◌, ◌++◌, length, IfOk, OnOk};

use smallvec::SmallVec;
use std::alloc::{AllocError, Global};
use std::marker::Model;

/// Registers by their numbers, in order: up to sixteen stay inline. Contracts see the list of them.
#[derive(Drop)]
pub struct RegisterList {
    numbers: SmallVec<u8, 16>,
}

impl Model for RegisterList {
    ghost use Rattle.std.specs.Prelude.{ℕ, List};

    ghost Value = { List ℕ };

    ghost view = { λ s. s.numbers.items };
}

impl RegisterList {
    /// No registers; takes no memory.
    pub fn new(alloc: Global) -> RegisterList
        ensures { result ≡ [] }
    {
        RegisterList {
            numbers: SmallVec::new(alloc),
        }
    }

    /// These registers; up to sixteen take no memory.
    pub fn from_slice(alloc: Global, numbers: &[u8]) -> Result<RegisterList, AllocError>
        ensures { IfOk result (λ list. list ≡ numbers.now) }
    {
        Ok(RegisterList {
            numbers: SmallVec::from_slice(alloc, numbers)?,
        })
    }

    /// Adds a register at the end.
    pub fn push(&mut self, number: u8) -> Result<(), AllocError>
        ensures { OnOk result (self.new ≡ self.old ++ number ∷ []) }
    {
        self.numbers.push(number)?;
        Ok(())
    }

    /// The registers, lent.
    pub fn as_slice(&self) -> &[u8]
        ensures { result.now ≡ self.now }
    {
        self.numbers.as_slice()
    }

    /// How many there are.
    pub fn len(&self) -> usize
        ensures { result ≡ length self.now }
    {
        self.numbers.len()
    }
}
