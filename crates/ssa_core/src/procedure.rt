//! Procedures. Blocks and values go by their numbers in the procedure, from 0 on.

use block_runs::{Code, End, Numbers};
use items::Items;

/// An operation: what it does, the values that it reads, in order, and the value that it makes.
#[derive(Drop)]
pub struct Op {
    pub code: Code,
    pub uses: Numbers,
    pub def: Option<u32>,
}

/// A block.
#[derive(Drop)]
pub struct Block {
    /// The values that an edge into the block gives.
    pub params: Numbers,
    pub ops: Items<Op>,
    pub end: End,
    /// How often it is taken to run, where the procedure's entry runs 2^20 times.
    pub freq: u64,
    /// The block that enters the loop, where this is a loop's header.
    pub enter: Option<u32>,
}

/// A procedure.
#[derive(Drop)]
pub struct Proc {
    pub blocks: Items<Block>,
    /// How many values it has.
    pub values: u32,
    /// How many argument words: the first four are the parameters of block 0.
    pub args: u32,
    /// Whether its calls are counted: those of a module's body aren't.
    pub counted: bool,
    /// The cells of its local data.
    pub local_cells: u64,
    /// The bytes of its local data.
    pub local_bytes: u64,
}
