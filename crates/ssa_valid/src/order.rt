//! Whether blocks read nothing that they make only later.

ghost use Rattle.std.specs.Prelude.{◌≡◌, ◌^◌, ◌<◌, IfOk, IsTrue, None, length, map, replicate, true};
ghost use Rattle.ssa_core.specs.Procedures.{operation_of, code_block, code_blocks};
ghost use Rattle.ssa_valid.specs.Order.{is_fresh, all_stamped, read_by, in_order, all_in_order};

use crate::stamps::Stamps;
use ssa_core::{Block, Op};
use std::alloc::{AllocError, Global};

fn stamp_all(stamps: &mut Stamps, values: &[u32], block: u32)
    ensures { stamps.new ≡ all_stamped stamps.old values.now block }
{
    for value in values {
        stamps.put(*value, block);
    }
}

fn is_fresh(stamps: &Stamps, value: Option<u32>, block: u32) -> bool
    ensures { result ≡ is_fresh stamps.now value block }
{
    match value {
        Some(value) => !stamps.has(value, block),
        None => true,
    }
}

/// Whether no operation makes what it or one before it has read. Each value bears as a stamp the block that read it last.
fn are_in_order(stamps: &mut Stamps, ops: &[Op], block: u32) -> bool
    ensures order { result ≡ in_order stamps.old (map operation_of ops.now) block }
    ensures stamps { IsTrue result → stamps.new ≡ read_by stamps.old (map operation_of ops.now) block }
{
    for op in ops {
        stamp_all(stamps, op.uses.as_slice(), block);
        if !is_fresh(stamps, op.def, block) {
            return false;
        }
    }
    true
}

/// Whether no block's operation makes what it or one before it in the block has read.
pub(crate) fn blocks_are_in_order(
    alloc: Global,
    blocks: &[Block],
    values: u32,
) -> Result<bool, AllocError>
    requires { length blocks.now < 2 ^ 32 }
    ensures { IfOk result (λ ordered. ordered ≡ all_in_order (replicate values None) (code_blocks blocks.now) 0) }
{
    let mut stamps = Stamps::new(alloc, values as usize)?;
    for (number, block) in blocks.iter().enumerate() {
        if !are_in_order(&mut stamps, block.ops.as_slice(), number as u32) {
            return Ok(false);
        }
    }
    Ok(true)
}
