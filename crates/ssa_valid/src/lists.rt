//! For each number of a value or block, the blocks that have to do with it.

ghost use Rattle.std.specs.Prelude.{◌≡◌, ◌<◌, ◌^◌, [], ◌∷◌, length, replicate, IfOk, OnOk, slice_index_or, option_to_list, map};
ghost use Rattle.block_runs.specs.Blocks.{end_uses, successors};
ghost use Rattle.block_runs.specs.Valid.{uses_of, block_reads};
ghost use Rattle.ssa_core.specs.Procedures.{operation_of, code_block, code_blocks};
ghost use Rattle.ssa_valid.specs.Tables.{row_at, noted, noted_from, block_leads};

use ssa_core::{Block, End, Op};
use std::alloc::{AllocError, Global};
use std::marker::Model;

/// A list of blocks for each of some numbers.
#[derive(Drop)]
pub(crate) struct Lists {
    lists: Vec<Vec<u32>>,
}

impl Model for Lists {
    ghost use Rattle.std.specs.Prelude.{ℕ, List, map};

    ghost Value = { List (List ℕ) };

    ghost view = { λ s. map (λ list. list.items) s.lists.items };
}

impl Lists {
    /// Empty lists for so many numbers.
    fn new(alloc: Global, count: usize) -> Result<Lists, AllocError>
        ensures { IfOk result (λ lists. lists ≡ replicate count []) }
    {
        let mut lists = Vec::with_capacity(alloc, count)?;
        for _ in 0..count {
            lists.push(Vec::new(alloc))?;
        }
        Ok(Lists { lists })
    }

    /// The blocks of a number; none where it isn't there.
    pub(crate) fn at(&self, number: u32) -> &[u32]
        ensures { result.now ≡ row_at self.now number }
    {
        match self.lists.get(number as usize) {
            Some(list) => list.as_slice(),
            None => &[],
        }
    }

    /// Adds a block to a number's list, if the number is there.
    fn note(&mut self, number: u32, block: u32) -> Result<(), AllocError>
        ensures { OnOk result (self.new ≡ noted block (number ∷ []) self.old) }
    {
        if (number as usize) < self.lists.len() {
            self.lists[number as usize].push(block)?;
        }
        Ok(())
    }

    fn note_all(&mut self, numbers: &[u32], block: u32) -> Result<(), AllocError>
        ensures { OnOk result (self.new ≡ noted block numbers.now self.old) }
    {
        for number in numbers {
            self.note(*number, block)?;
        }
        Ok(())
    }

    fn note_operations(&mut self, ops: &[Op], block: u32) -> Result<(), AllocError>
        ensures { OnOk result (self.new ≡ noted block (uses_of (map operation_of ops.now)) self.old) }
    {
        for op in ops {
            self.note_all(op.uses.as_slice(), block)?;
        }
        Ok(())
    }

    fn note_some(&mut self, number: Option<u32>, block: u32) -> Result<(), AllocError>
        ensures { OnOk result (self.new ≡ noted block (option_to_list number) self.old) }
    {
        match number {
            Some(number) => self.note(number, block),
            None => Ok(()),
        }
    }

    fn note_reads(&mut self, end: &End, block: u32) -> Result<(), AllocError>
        ensures { OnOk result (self.new ≡ noted block (end_uses end.now) self.old) }
    {
        match end {
            End::Jump { args, .. } => self.note_all(args.as_slice(), block),
            End::Branch { a, b, .. } => self.note_all(&[*a, *b], block),
            End::Nonzero { a, .. } => self.note_all(&[*a], block),
            End::Return(value) => self.note_some(*value, block),
            End::Trap(_) => Ok(()),
        }
    }

    fn note_targets(&mut self, end: &End, block: u32) -> Result<(), AllocError>
        ensures { OnOk result (self.new ≡ noted block (successors end.now) self.old) }
    {
        match end {
            End::Jump { to, .. } => self.note_all(&[*to], block),
            End::Branch { yes, no, .. } => self.note_all(&[*yes, *no], block),
            End::Nonzero { yes, no, .. } => self.note_all(&[*yes, *no], block),
            End::Return(_) | End::Trap(_) => Ok(()),
        }
    }

    fn note_block(&mut self, block: &Block, number: u32) -> Result<(), AllocError>
        ensures { OnOk result (self.new ≡ noted number (block_reads (code_block block.now)) self.old) }
    {
        self.note_operations(block.ops.as_slice(), number)?;
        self.note_reads(&block.end, number)
    }
}

/// For each value the blocks that read it.
pub(crate) fn readers(alloc: Global, blocks: &[Block], values: u32) -> Result<Lists, AllocError>
    requires { length blocks.now < 2 ^ 32 }
    ensures { IfOk result (λ lists. lists ≡ noted_from block_reads 0 (code_blocks blocks.now) (replicate values [])) }
{
    let mut lists = Lists::new(alloc, values as usize)?;
    for (number, block) in blocks.iter().enumerate() {
        lists.note_block(block, number as u32)?;
    }
    Ok(lists)
}

/// For each block the blocks from which an edge leads to it.
pub(crate) fn sources(alloc: Global, blocks: &[Block]) -> Result<Lists, AllocError>
    requires { length blocks.now < 2 ^ 32 }
    ensures { IfOk result (λ lists. lists ≡ noted_from block_leads 0 (code_blocks blocks.now) (replicate (length blocks.now) [])) }
{
    let mut lists = Lists::new(alloc, blocks.len())?;
    for (number, block) in blocks.iter().enumerate() {
        lists.note_targets(&block.end, number as u32)?;
    }
    Ok(lists)
}
