//! A list of registers that is made from its end on.

ghost use Rattle.std.specs.Prelude.{◌≡◌, [], ◌∷◌, IfOk, OnOk};

use lir_core::RegisterList;
use smallvec::SmallVec;
use std::alloc::{AllocError, Global};
use std::marker::Model;

/// Registers in order, which are added in front; contracts see the list. Up to 32 take no memory. They are kept from the
/// last one on.
#[derive(Drop)]
pub struct FrontRegisters {
    from_last: SmallVec<u8, 32>,
}

impl Model for FrontRegisters {
    ghost use Rattle.std.specs.Prelude.{ℕ, List, reverse};

    ghost Value = { List ℕ };

    ghost view = { λ s. reverse s.from_last.items };
}

impl FrontRegisters {
    /// No registers.
    pub fn new(alloc: Global) -> FrontRegisters
        ensures { result ≡ [] }
    {
        FrontRegisters {
            from_last: SmallVec::new(alloc),
        }
    }

    /// Adds a register in front.
    pub fn push_front(&mut self, reg: u8) -> Result<(), AllocError>
        ensures { OnOk result (self.new ≡ reg ∷ self.old) }
    {
        self.from_last.push(reg)?;
        Ok(())
    }

    /// Gives the registers as a list, and is empty then, with its memory kept.
    pub fn take(&mut self, alloc: Global) -> Result<RegisterList, AllocError>
        ensures registers { IfOk result (λ list. list ≡ self.old) }
        ensures left { OnOk result (self.new ≡ []) }
    {
        self.from_last.as_mut_slice().reverse();
        let list = RegisterList::from_slice(alloc, self.from_last.as_slice())?;
        self.from_last.clear();
        Ok(list)
    }
}
