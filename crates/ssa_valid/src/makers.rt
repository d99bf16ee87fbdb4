//! How often each value is made, and where.

ghost use Rattle.std.specs.Prelude.{◌≡◌, ◌^◌, ◌<◌, ◌↔◌, ℕ, EachIndex, IfOk, IsTrue, length, map, replicate, slice_index, slice_set};
ghost use Rattle.block_runs.specs.Live.{defs_of, block_makes};
ghost use Rattle.block_runs.specs.Valid.{made, times};
ghost use Rattle.ssa_core.specs.Procedures.{operation_of, code_block, code_blocks};
ghost use Rattle.ssa_valid.specs.Tables.{made_in, makers_from, one_more, tallied};

use ssa_core::{Block, Op};
use std::alloc::{AllocError, Global};

/// For each value the block that makes it, where each is made once; any number for one that none makes.
pub(crate) fn makers(alloc: Global, blocks: &[Block], values: u32) -> Result<Vec<u32>, AllocError>
    requires { length blocks.now < 2 ^ 32 }
    ensures table { IfOk result (λ makers. makers.items ≡ makers_from 0 (code_blocks blocks.now) (replicate values 0)) }
    ensures few { IfOk result (λ makers. length makers.items < 2 ^ 32) }
{
    let mut makers = vec![in alloc; 0u32; values as usize]?;
    for (number, block) in blocks.iter().enumerate() {
        add_block(&mut makers, block, number as u32);
    }
    Ok(makers)
}

// A block makes its parameters and what its operations make.
fn add_block(makers: &mut Vec<u32>, block: &Block, number: u32)
    ensures { makers.new.items ≡ made_in number (block_makes (code_block block.now)) makers.old.items }
{
    for value in block.params.as_slice() {
        add(makers, *value, number);
    }
    add_operations(makers, block.ops.as_slice(), number);
}

fn add_operations(makers: &mut Vec<u32>, ops: &[Op], number: u32)
    ensures { makers.new.items ≡ made_in number (defs_of (map operation_of ops.now)) makers.old.items }
{
    for op in ops {
        if let Some(value) = op.def {
            add(makers, value, number);
        }
    }
}

fn add(makers: &mut Vec<u32>, value: u32, number: u32)
    ensures { makers.new.items ≡ slice_set makers.old.items value number }
{
    if (value as usize) < makers.len() {
        makers[value as usize] = number;
    }
}

/// Whether each value is made once.
pub(crate) fn are_made_once(
    alloc: Global,
    blocks: &[Block],
    values: u32,
) -> Result<bool, AllocError>
    ensures { IfOk result (λ once. IsTrue once ↔ ((v : ℕ) → v < values → times (made (code_blocks blocks.now)) v ≡ 1)) }
{
    let mut counts = vec![in alloc; 0u8; values as usize]?;
    for block in blocks {
        tally_block(&mut counts, block);
    }
    Ok(are_ones(counts.as_slice()))
}

fn are_ones(counts: &[u8]) -> bool
    ensures { IsTrue result ↔ EachIndex counts.now (λ k. slice_index counts.now k ≡ 1) }
{
    counts.iter().all(|count| *count == 1)
}

fn tally_block(counts: &mut Vec<u8>, block: &Block)
    ensures { counts.new.items ≡ tallied (block_makes (code_block block.now)) counts.old.items }
{
    for value in block.params.as_slice() {
        tally(counts, *value);
    }
    tally_operations(counts, block.ops.as_slice());
}

fn tally_operations(counts: &mut Vec<u8>, ops: &[Op])
    ensures { counts.new.items ≡ tallied (defs_of (map operation_of ops.now)) counts.old.items }
{
    for op in ops {
        if let Some(value) = op.def {
            tally(counts, value);
        }
    }
}

// One more of a value; several count as 2.
fn tally(counts: &mut Vec<u8>, value: u32)
    ensures { counts.new.items ≡ slice_set counts.old.items value (one_more (slice_index counts.old.items value)) }
{
    if (value as usize) < counts.len() {
        counts[value as usize] = if counts[value as usize] == 0 { 1 } else { 2 };
    }
}
