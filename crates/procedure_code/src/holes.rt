//! Holes.

use a64_instr::Reg;

/// What stands in a hole: a call of a procedure or of a routine, and the halves of the address of a procedure's code,
/// which goes to a register.
#[derive(Clone, Copy)]
pub enum What {
    Calls(u32),
    Copies,
    Zeros,
    Compares,
    Lower(u32, Reg),
    Upper(u32, Reg),
}

/// A word of a piece that depends on where others stand: how many words stand before it in its piece, and what it is.
#[derive(Clone, Copy)]
pub struct Hole {
    pub at: u32,
    pub what: What,
}
