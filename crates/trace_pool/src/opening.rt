//! The words of a pool that opens.

ghost use Rattle.std.specs.Prelude.{◌≡◌, ◌≤◌, ◌∷◌, length, IfOk};
ghost use Rattle.trace_pool.specs.Opened.{opening_words};

use pool_core::{Work, first_cells};
use std::alloc::{AllocError, Global};

// The parent of each trace.
pub(crate) fn parents_of<W: Work>(alloc: Global, work: &W) -> Result<Vec<Option<u32>>, AllocError>
    ensures { IfOk result (λ v. v.items ≡ W.parents work.now) }
{
    let count = work.count();
    let mut parents = Vec::with_capacity(alloc, count as usize)?;
    for trace in 0..count {
        parents.push(work.parent(trace))?;
    }
    Ok(parents)
}

// The four words before the cells, and the cells.
fn with_counts(alloc: Global, shown: u64, cells: &[u64]) -> Result<Vec<u64>, AllocError>
    ensures { IfOk result (λ v. v.items ≡ 0 ∷ shown ∷ 0 ∷ 0 ∷ cells.now) }
{
    let mut words = Vec::with_capacity(alloc, cells.len())?;
    words.push(0)?;
    words.push(shown)?;
    words.push(0)?;
    words.push(0)?;
    words.extend_from_slice(cells)?;
    Ok(words)
}

// The words of a pool that opens on traces with these parents.
pub(crate) fn first_words(alloc: Global, parents: &[Option<u32>]) -> Result<Vec<u64>, AllocError>
    requires { length parents.now ≤ 262144 }
    ensures { IfOk result (λ v. v.items ≡ opening_words parents.now) }
{
    let first = first_cells(alloc, parents)?;
    with_counts(alloc, first.shown as u64, first.cells.as_slice())
}
