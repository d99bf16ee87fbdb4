//! A row of registers.

ghost use Rattle.std.specs.Prelude.{◌≡◌, ◌<◌, ◌≤◌, [], ◌∷◌, ◌++◌, length, map, None, true, IfOk, IfSome, OnOk, slice_set};
ghost use Rattle.lir_core.specs.Spots.{get, in_register};
ghost use Rattle.lir_core.specs.Walks.{without};
ghost use Rattle.loc_state.specs.Registers.{is, register_of, lowest_empty};

use lir_core::Items;
use smallvec::SmallVec;
use std::alloc::{AllocError, Global};
use std::marker::Model;

/// Registers, each empty or with one value, which contracts see as the list of what they have. Up to 16 take no memory.
#[derive(Drop)]
pub struct Registers {
    row: SmallVec<Option<u32>, 16>,
}

impl Model for Registers {
    ghost use Rattle.std.specs.Prelude.{ℕ, List, Option};

    ghost Value = { List (Option ℕ) };

    ghost view = { λ s. s.row.items };
}

impl Registers {
    /// No registers.
    pub fn new(alloc: Global) -> Registers
        ensures { result ≡ [] }
    {
        Registers {
            row: SmallVec::new(alloc),
        }
    }

    /// A register more.
    pub fn push(&mut self, value: Option<u32>) -> Result<(), AllocError>
        ensures { OnOk result (self.new ≡ self.old ++ value ∷ []) }
    {
        self.row.push(value)?;
        Ok(())
    }

    /// Registers with these values.
    pub fn from_slice(alloc: Global, row: &[Option<u32>]) -> Result<Registers, AllocError>
        ensures { IfOk result (λ regs. regs ≡ row.now) }
    {
        Ok(Registers {
            row: SmallVec::from_slice(alloc, row)?,
        })
    }

    /// Takes these values in place of its own.
    pub fn assign(&mut self, alloc: Global, row: &[Option<u32>]) -> Result<(), AllocError>
        ensures { OnOk result (self.new ≡ row.now) }
    {
        if self.row.len() == row.len() {
            self.row.as_mut_slice().copy_from_slice(row);
            return Ok(());
        }
        self.row = SmallVec::from_slice(alloc, row)?;
        Ok(())
    }

    /// The registers, lent.
    pub fn as_slice(&self) -> &[Option<u32>]
        ensures { result.now ≡ self.now }
    {
        self.row.as_slice()
    }

    /// What a register has.
    pub fn value(&self, reg: u8) -> Option<u32>
        requires { reg < length self.now }
        ensures { result ≡ get self.now reg }
    {
        self.row.as_slice()[reg as usize]
    }

    /// Writes a register.
    pub fn set(&mut self, reg: u8, value: Option<u32>)
        requires { reg < length self.old }
        ensures { self.new ≡ slice_set self.old reg value }
    {
        write(self.row.as_mut_slice(), reg, value);
    }

    /// Empties the registers that have a value.
    pub fn remove(&mut self, value: u32)
        ensures { self.new ≡ map (without value) self.old }
    {
        clear(self.row.as_mut_slice(), value);
    }

    /// Empties all registers.
    pub fn remove_all(&mut self)
        ensures { self.new ≡ map (λ x. None) self.old }
    {
        clear_all(self.row.as_mut_slice());
    }

    /// A copy.
    pub fn list(&self, alloc: Global) -> Result<Items<Option<u32>>, AllocError>
        ensures { IfOk result (λ list. list ≡ self.now) }
    {
        Items::from_slice(alloc, self.row.as_slice())
    }
}

// Whether a register has the value.
fn holds(content: &Option<u32>, value: u32) -> bool
    ensures { result ≡ is value content.now }
{
    match content {
        Some(v) => *v == value,
        None => false,
    }
}

/// Whether a register has the value.
pub fn has_register(regs: &[Option<u32>], value: u32) -> bool
    ensures { result ≡ in_register regs.now value }
{
    for content in regs {
        if holds(content, value) {
            return true;
        }
    }
    false
}

/// The first register that has the value; how many there are where none has.
pub fn register_of(regs: &[Option<u32>], value: u32) -> u8
    requires { length regs.now ≤ 16 }
    ensures first { result ≡ register_of value regs.now }
    ensures below { in_register regs.now value ≡ true → result < length regs.now }
{
    let mut reg: u8 = 0;
    for content in regs {
        if holds(content, value) {
            return reg;
        }
        reg += 1;
    }
    reg
}

/// The lowest empty register.
pub fn lowest_empty(regs: &[Option<u32>]) -> Option<u8>
    requires { length regs.now ≤ 16 }
    ensures lowest { result ≡ lowest_empty 0 regs.now }
    ensures below { IfSome result (λ r. r < length regs.now) }
{
    let mut reg: u8 = 0;
    for content in regs {
        if content.is_none() {
            return Some(reg);
        }
        reg += 1;
    }
    None
}

fn write(regs: &mut [Option<u32>], reg: u8, value: Option<u32>)
    requires { reg < length regs.old }
    ensures { regs.new ≡ slice_set regs.old reg value }
{
    regs[reg as usize] = value;
}

fn clear(regs: &mut [Option<u32>], value: u32)
    ensures { regs.new ≡ map (without value) regs.old }
{
    for content in regs.iter_mut() {
        if holds(content, value) {
            *content = None;
        }
    }
}

fn clear_all(regs: &mut [Option<u32>])
    ensures { regs.new ≡ map (λ x. None) regs.old }
{
    for content in regs.iter_mut() {
        *content = None;
    }
}
