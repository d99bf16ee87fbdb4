//! The nodes in the order in which they are taken.

ghost use Rattle.std.specs.Prelude.{◌<◌, ◌^◌, length, IfOk};
ghost use Rattle.trace_build.specs.Ranks.{AreRanks, AreRanked};

use lir_core::Node;
use std::alloc::{AllocError, Global};

/// A node's rank: how far its frequency is below the greatest, then its number.
#[derive(Clone, Copy, PartialEq, Eq, PartialOrd, Ord)]
pub(crate) struct Rank {
    rarity: u64,
    pub(crate) node: u32,
}

/// All nodes, in the order in which they are taken: the more frequent before, of equally frequent ones the lower number.
pub(crate) fn ranks(alloc: Global, nodes: &[Node]) -> Result<Vec<Rank>, AllocError>
    requires { length nodes.now < 2 ^ 32 }
    ensures { IfOk result (λ ranks. AreRanked nodes.now ranks.items) }
{
    let mut ranks = unsorted(alloc, nodes)?;
    ranks.sort_unstable();
    Ok(ranks)
}

// The ranks, by the nodes' numbers.
fn unsorted(alloc: Global, nodes: &[Node]) -> Result<Vec<Rank>, AllocError>
    requires { length nodes.now < 2 ^ 32 }
    ensures { IfOk result (λ ranks. AreRanks nodes.now ranks.items) }
{
    let mut ranks = Vec::with_capacity(alloc, nodes.len())?;
    for (number, node) in nodes.iter().enumerate() {
        ranks.push(Rank {
            rarity: u64::MAX - node.freq,
            node: number as u32,
        })?;
    }
    Ok(ranks)
}
