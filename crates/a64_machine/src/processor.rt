//! Registers, flags, memory and input, and the ways in which an instruction changes them.

ghost use Rattle.std.specs.Prelude.{◌≡◌, ◌*◌, ◌%◌, ◌^◌, ◌<◌};
ghost use Rattle.a64_memory.specs.Memory.{load8, load1, store8, store1};
ghost use Rattle.a64_machine.specs.State.{place_at, read, read_or_sp};
ghost use Rattle.a64_machine.specs.Effects.{goes, calls, goes_if, gives, gives_or_sp, gives_flags, loads, stores};
ghost use Rattle.a64_machine.specs.View.{core_state, Told};

use crate::answers::Step;
use crate::code::CODE_BASE;
use a64_instr::Reg;
use a64_memory::{Region, load1, load8, store1, store8};
use a64_numbers::Flags;

/// All of a machine but its code.
#[derive(Drop)]
pub struct Core {
    /// X0 to X30.
    pub registers: [u64; 31],
    /// The stack pointer.
    pub sp: u64,
    /// The address of the word that is fetched next.
    pub pc: u64,
    /// N, Z, C and V.
    pub flags: Flags,
    /// All regions but the code's.
    pub memory: Vec<Region>,
    /// The whole input.
    pub input: Vec<u8>,
    /// How many bytes of the input were taken.
    pub taken: usize,
}

impl Core {
    /// What a register reads as; 31 is zero.
    pub fn read(&self, n: Reg) -> u64
        ensures { result ≡ read (core_state self.now).registers n }
    {
        let n = n.get() as usize;
        if n == 31 { 0 } else { self.registers[n] }
    }

    /// What a register reads as; 31 is SP.
    pub fn read_or_sp(&self, n: Reg) -> u64
        ensures { result ≡ read_or_sp (core_state self.now) n }
    {
        let n = n.get() as usize;
        if n == 31 { self.sp } else { self.registers[n] }
    }

    /// The number of the code word that is fetched next.
    pub fn place(&self) -> u32
        requires { place_at (core_state self.now).pc < 2 ^ 32 }
        ensures { result ≡ place_at (core_state self.now).pc }
    {
        (self.pc.saturating_sub(CODE_BASE) / 4) as u32
    }

    /// Goes to an address.
    pub fn goes(&mut self, to: u64) -> Step
        ensures { Told result (core_state self.old) (core_state self.new) (goes (core_state self.old) to) }
    {
        self.pc = to;
        Step::Going
    }

    /// Goes to an address with the address behind the instruction in X30.
    pub fn calls(&mut self, to: u64) -> Step
        ensures { Told result (core_state self.old) (core_state self.new) (calls (core_state self.old) to) }
    {
        self.registers[30] = self.pc.wrapping_add(4);
        self.pc = to;
        Step::Going
    }

    /// Goes to an address where the test holds, else on.
    pub fn goes_if(&mut self, test: bool, to: u64) -> Step
        ensures { Told result (core_state self.old) (core_state self.new) (goes_if (core_state self.old) test to) }
    {
        let next = self.pc.wrapping_add(4);
        self.goes(if test { to } else { next })
    }

    /// Writes a register, unless it is 31, and goes on.
    pub fn gives(&mut self, d: Reg, value: u64) -> Step
        ensures { Told result (core_state self.old) (core_state self.new) (gives (core_state self.old) d value) }
    {
        let n = d.get() as usize;
        self.pc = self.pc.wrapping_add(4);
        if n != 31 {
            self.registers[n] = value;
        }
        Step::Going
    }

    /// Writes a register, or SP where it is 31, and goes on.
    pub fn gives_or_sp(&mut self, d: Reg, value: u64) -> Step
        ensures { Told result (core_state self.old) (core_state self.new) (gives_or_sp (core_state self.old) d value) }
    {
        let n = d.get() as usize;
        self.pc = self.pc.wrapping_add(4);
        if n == 31 {
            self.sp = value;
        } else {
            self.registers[n] = value;
        }
        Step::Going
    }

    /// Writes a register, unless it is 31, and the flags, and goes on.
    pub fn gives_flags(&mut self, d: Reg, value: u64, flags: Flags) -> Step
        ensures { Told result (core_state self.old) (core_state self.new) (gives_flags (core_state self.old) d value flags) }
    {
        self.flags = flags;
        self.gives(d, value)
    }

    /// Loads eight bytes into a register and goes on.
    pub fn loads8(&mut self, t: Reg, address: u64) -> Step
        ensures { Told result (core_state self.old) (core_state self.new) (loads (core_state self.old) t address (load8 (core_state self.old).memory address)) }
    {
        match load8(&self.memory, address) {
            Some(value) => self.gives(t, value),
            None => Step::BadAddress(address),
        }
    }

    /// Loads a byte into a register and goes on.
    pub fn loads1(&mut self, t: Reg, address: u64) -> Step
        ensures { Told result (core_state self.old) (core_state self.new) (loads (core_state self.old) t address (load1 (core_state self.old).memory address)) }
    {
        match load1(&self.memory, address) {
            Some(byte) => self.gives(t, byte as u64),
            None => Step::BadAddress(address),
        }
    }

    /// Stores eight bytes and goes on.
    pub fn stores8(&mut self, address: u64, value: u64) -> Step
        ensures { Told result (core_state self.old) (core_state self.new) (stores (core_state self.old) address (store8 (core_state self.old).memory address value)) }
    {
        if store8(&mut self.memory, address, value) {
            self.pc = self.pc.wrapping_add(4);
            Step::Going
        } else {
            Step::BadAddress(address)
        }
    }

    /// Stores a value's low byte and goes on.
    pub fn stores1(&mut self, address: u64, value: u64) -> Step
        ensures { Told result (core_state self.old) (core_state self.new) (stores (core_state self.old) address (store1 (core_state self.old).memory address value)) }
    {
        if store1(&mut self.memory, address, value) {
            self.pc = self.pc.wrapping_add(4);
            Step::Going
        } else {
            Step::BadAddress(address)
        }
    }
}
