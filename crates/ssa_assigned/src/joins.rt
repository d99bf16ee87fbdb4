//! The variables that a join's parameters are.

ghost use Rattle.std.specs.Prelude.{◌≡◌, ℕ, List, length, IfOk};
ghost use Rattle.std.specs.List.{filter};
ghost use Rattle.ob_types.specs.declared.program.Program.{Program};
ghost use Rattle.ssa_lowered.specs.Lowered.{Here};
ghost use Rattle.ssa_lowered.specs.Pieces.{Mask};
ghost use Rattle.ssa_exprs.specs.Changes.{chosen};
ghost use Rattle.ssa_exprs.specs.Tables.{Serves};
ghost use Rattle.ssa_assigned.specs.Assigned.{has};
ghost use Rattle.ssa_assigned.specs.Registers.{kept, registers_in};

use outside::Memory;
use ssa_exprs::Tables;
use std::alloc::Global;

/// Of the first so many variables those that are in registers and in a list, in order of declaration, each once.
pub fn registers(
    alloc: Global,
    t: &Tables<'_>,
    count: usize,
    found: Vec<u32>,
) -> Result<Vec<u32>, Memory>
    ensures { IfOk result (λ list. (p : Program) (here : Here) → Serves t.now p here → (mask : Mask) → ((x : ℕ) → has found.items x ≡ mask x) →
        (env : List ℕ) → length env ≡ count → list.items ≡ chosen (registers_in p here mask) 0 env) }
{
    let mut found = found;
    found.sort_unstable();
    found.dedup();
    let list = those_kept(alloc, t, count, found.as_slice())?;
    Ok(list)
}

/// Of the first so many variables those that are in registers.
fn those_kept(
    alloc: Global,
    t: &Tables<'_>,
    count: usize,
    found: &[u32],
) -> Result<Vec<u32>, Memory>
    ensures { IfOk result (λ list. list.items ≡ filter (kept t.now count) found.now) }
{
    let mut list = Vec::new(alloc);
    for x in found {
        if keeps(t, count, *x) {
            list.push(*x)?;
        }
    }
    Ok(list)
}

/// Whether a variable is one of the first so many, and in a register.
fn keeps(t: &Tables<'_>, count: usize, x: u32) -> bool
    ensures { result ≡ kept t.now count x }
{
    (x as usize) < count && t.in_register(x)
}
