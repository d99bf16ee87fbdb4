//! Where blocks stand in traces.

ghost use Rattle.std.specs.Prelude.{◌≡◌, ℕ, ◌<◌, length, None, slice_index_or, slice_set, Some, IfOk};
ghost use Rattle.flow_drawing.specs.Standings.{standing_in, standing_from, first_of, standings_of};

use lir_core::Trace;
use std::alloc::{AllocError, Global};

/// The trace that a block is in, by its number, and the block behind it there.
#[derive(Clone, Copy)]
pub(crate) struct Standing {
    pub(crate) trace: usize,
    pub(crate) next: Option<u32>,
}

// A block has this standing.
fn set(standings: &mut [Option<Standing>], block: u32, standing: Standing)
    ensures { standings.new ≡ slice_set standings.old block (Some standing) }
{
    if (block as usize) < standings.len() {
        standings[block as usize] = Some(standing);
    }
}

// The blocks of a trace have their standings in it, the first where a block is in it twice.
fn stand_in(standings: &mut [Option<Standing>], trace: usize, blocks: &[u32])
    ensures same { length standings.new ≡ length standings.old }
    ensures each { (b : ℕ) → b < length standings.old
        → slice_index_or standings.new b None ≡ first_of (standing_in trace blocks.now b) (slice_index_or standings.old b None) }
{
    let mut next = None;
    let mut at = blocks.len();
    while at > 0 {
        at -= 1;
        let block = blocks[at];
        set(standings, block, Standing { trace, next });
        next = Some(block);
    }
}

/// The standing of each of so many blocks, by its number; in the first trace, where several have it.
pub(crate) fn standings_of(
    alloc: Global,
    count: usize,
    traces: &[Trace],
) -> Result<Vec<Option<Standing>>, AllocError>
    ensures { IfOk result (λ standings. standings.items ≡ standings_of count traces.now) }
{
    let mut standings = vec![in alloc; None; count]?;
    let mut number = traces.len();
    while number > 0 {
        number -= 1;
        stand_in(
            standings.as_mut_slice(),
            number,
            traces[number].nodes.as_slice(),
        );
    }
    Ok(standings)
}
