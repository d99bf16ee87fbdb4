//! Whether procedures are short enough to be valid: for longer ones there is no memory. The count stops as soon as there are too
//! many blocks and operations.

ghost use Rattle.std.specs.Prelude.{◌≡◌};
ghost use Rattle.std.specs.List.{list_all};
ghost use Rattle.program_image.specs.Sizes.{is_short, blocks_short};

use ssa_core::{Block, Proc};

/// How many blocks and operations a procedure has at most.
const MOST: usize = 500_000_000;

/// Whether each procedure has at most 500,000,000 blocks and operations.
#[tactic(auto, using(crate::proofs::Counting::one_short, crate::proofs::Counting::one_long, crate::proofs::Counting::all_are))]
pub fn are_short(procedures: &[Proc]) -> bool
    ensures { result ≡ list_all (λ p. is_short p) procedures.now }
{
    for procedure in procedures {
        if !is_short(procedure.blocks.as_slice()) {
            return false;
        }
    }
    true
}

#[tactic(auto, using(crate::proofs::Counting::too_long, crate::proofs::Counting::counted, crate::proofs::Counting::short_enough))]
pub(crate) fn is_short(blocks: &[Block]) -> bool
    ensures { result ≡ blocks_short blocks.now }
{
    let mut left = MOST;
    for block in blocks {
        let operations = block.ops.len();
        if operations >= left {
            return false;
        }
        left -= operations + 1;
    }
    true
}
