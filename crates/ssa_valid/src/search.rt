//! The search from the reads of each value against the edges.

ghost use Rattle.std.specs.Prelude.{◌≡◌, ◌<◌, ◌^◌, length, OnOk, IfOk};
ghost use Rattle.block_runs.specs.Valid.{block_reads};
ghost use Rattle.ssa_core.specs.Procedures.{code_blocks};
ghost use Rattle.ssa_valid.specs.Search.{marks_of, Decides, Settles};

use crate::lists::{Lists, readers, sources};
use crate::stamps::Stamps;
use ssa_core::Block;
use std::alloc::{AllocError, Global};

/// Where a search stands.
#[derive(Drop)]
pub(crate) struct Search {
    /// The blocks into which the value is live that is searched for: they bear it as their stamp.
    pub(crate) live: Stamps,
    /// Those of them before which is still to be looked.
    pub(crate) pending: Vec<u32>,
}

impl Search {
    ghost use Rattle.ssa_valid.specs.Tables.{row_at};
    ghost use Rattle.ssa_valid.specs.Search.{marks_of, marked, all_marked, Explores, Finds};

    /// Whether a value that one block makes, and these read, is live into the first block.
    pub(crate) fn reaches_first(
        &mut self,
        sources: &Lists,
        readers: &[u32],
        maker: u32,
        value: u32,
    ) -> Result<bool, AllocError>
        ensures { IfOk result (λ found. Finds sources.now readers.now maker value (marks_of self.old) found (marks_of self.new)) }
    {
        self.mark_each(readers, maker, value)?;
        self.explore(sources, maker, value)?;
        Ok(self.live.has(0, value))
    }

    // Goes on until nothing is pending.
    fn explore(&mut self, sources: &Lists, maker: u32, value: u32) -> Result<(), AllocError>
        ensures { OnOk result (Explores sources.now maker value (marks_of self.old) (marks_of self.new)) }
    {
        while let Some(block) = self.pending.pop() {
            self.mark_each(sources.at(block), maker, value)?;
        }
        Ok(())
    }

    // A value is live into these blocks, but the one that makes it.
    fn mark_each(&mut self, blocks: &[u32], maker: u32, value: u32) -> Result<(), AllocError>
        ensures { OnOk result (marks_of self.new ≡ all_marked maker value blocks.now (marks_of self.old)) }
    {
        for block in blocks {
            self.mark(*block, maker, value)?;
        }
        Ok(())
    }

    // A value is live into a block, unless the block makes it.
    fn mark(&mut self, block: u32, maker: u32, value: u32) -> Result<(), AllocError>
        ensures { OnOk result (marks_of self.new ≡ marked maker value block (marks_of self.old)) }
    {
        if maker != block && self.live.join(block, value) {
            self.pending.push(block)?;
        }
        Ok(())
    }
}

/// Whether no value is live into the first block, where this is the block that makes each value.
pub(crate) fn is_first_free(
    alloc: Global,
    blocks: &[Block],
    makers: &[u32],
) -> Result<bool, AllocError>
    requires blocks { length blocks.now < 2 ^ 32 }
    requires values { length makers.now < 2 ^ 32 }
    ensures { IfOk result (λ free. Decides (code_blocks blocks.now) makers.now free) }
{
    let sources = sources(alloc, blocks)?;
    let readers = readers(alloc, blocks, makers.len() as u32)?;
    let mut search = Search {
        live: Stamps::new(alloc, blocks.len())?,
        pending: Vec::new(alloc),
    };
    none_reaches_first(&mut search, &sources, &readers, makers)
}

// Searches for each value.
fn none_reaches_first(
    search: &mut Search,
    sources: &Lists,
    readers: &Lists,
    makers: &[u32],
) -> Result<bool, AllocError>
    requires { length makers.now < 2 ^ 32 }
    ensures { IfOk result (λ free. Settles sources.now readers.now makers.now (marks_of search.old) free) }
{
    for (value, maker) in makers.iter().enumerate() {
        if search.reaches_first(sources, readers.at(value as u32), *maker, value as u32)? {
            return Ok(false);
        }
    }
    Ok(true)
}
