//! How blocks end.

use crate::numbers::Numbers;

/// How a block ends. Blocks and values go by their numbers in the procedure.
#[derive(Drop)]
pub enum End {
    /// On to a block, whose parameters become the arguments, all at once.
    Jump {
        to: u32,
        args: Numbers,
    },
    /// To `yes` where the condition, by its number in instructions, holds between a and b, else to `no`.
    Branch {
        cond: u8,
        a: u32,
        b: u32,
        yes: u32,
        no: u32,
    },
    /// To `yes` where a isn't 0, else to `no`.
    Nonzero {
        a: u32,
        yes: u32,
        no: u32,
    },
    /// Back to the caller, with a result or none.
    Return(Option<u32>),
    /// A trap of a kind.
    Trap(u16),
}
