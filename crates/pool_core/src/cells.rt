//! The cells of a pool that opens.

ghost use Rattle.std.specs.Prelude.{◌≡◌, ℕ, suc, ◌+◌, ◌-◌, ◌≤◌, ◌++◌, length, map, replicate, IfOk, vec_len};
ghost use Rattle.pool_core.specs.Tree.{roots};
ghost use Rattle.pool_core.specs.Runs.{opening_cells};

use std::alloc::{AllocError, Global};

/// The cells of a pool that opens, one for each trace: the first show the traces without a parent, in rising order,
/// each as one more than its number, and each other is 0.
#[derive(Drop)]
pub struct FirstCells {
    pub cells: Vec<u64>,
    /// How many traces are shown.
    pub shown: u32,
}

/// The cells of a pool of the traces with these parents.
pub fn first_cells(alloc: Global, parents: &[Option<u32>]) -> Result<FirstCells, AllocError>
    requires { length parents.now ≤ 262144 }
    ensures cells { IfOk result (λ r. r.cells.items ≡ opening_cells parents.now) }
    ensures shown { IfOk result (λ r. r.shown ≡ length (roots parents.now)) }
{
    let cells = root_cells(alloc, parents)?;
    let shown = cells.len() as u32;
    let cells = padded(cells, parents.len())?;
    Ok(FirstCells { cells, shown })
}

fn root_cells(alloc: Global, parents: &[Option<u32>]) -> Result<Vec<u64>, AllocError>
    requires { length parents.now ≤ 262144 }
    ensures { IfOk result (λ v. v.items ≡ map suc (roots parents.now)) }
{
    let mut cells = Vec::new(alloc);
    for trace in 0..parents.len() {
        match parents[trace] {
            None => cells.push(trace as u64 + 1)?,
            Some(_) => {}
        }
    }
    Ok(cells)
}

fn padded(mut cells: Vec<u64>, count: usize) -> Result<Vec<u64>, AllocError>
    requires { vec_len cells ≤ count }
    ensures { IfOk result (λ v. v.items ≡ cells.items ++ replicate (count - vec_len cells) 0) }
{
    for _ in cells.len()..count {
        cells.push(0)?;
    }
    Ok(cells)
}
