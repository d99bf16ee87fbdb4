//! The register variables that a join or a header has as parameters.

ghost use Rattle.std.specs.Prelude.{◌≡◌, ◌<◌, ℕ, drop, length, nat_lt, slice_index, IfOk};
ghost use Rattle.std.specs.List.{filter};
ghost use Rattle.ob_types.specs.declared.program.Program.{Program};
ghost use Rattle.ssa_lowered.specs.Lowered.{Here};
ghost use Rattle.ssa_lowered.specs.Pieces.{Mask};
ghost use Rattle.ssa_lowered.specs.Variables.{either};
ghost use Rattle.ssa_exprs.specs.Tables.{Serves};
ghost use Rattle.ssa_assigned.specs.Assigned.{has, assigned_list, assigned_parts, assigned_cases, assigned_types};
ghost use Rattle.ssa_statements.specs.walk.Joins.{AreJoined};

use ob_types::{Branch, CasePart, Stmt, TypePart};
use outside::Memory;
use ssa_assigned::{
    lasting, note_all, note_cases, note_parts, note_types, registers, still_assigned,
};
use ssa_exprs::{Making, Tables};
use std::alloc::Global;

/// Of the parts of IF or WHILE, with what is assigned otherwise.
pub fn of_branches(
    t: &Tables<'_>,
    b: &Making,
    parts: &[Branch],
    other: &[u32],
) -> Result<Vec<u32>, Memory>
    ensures { IfOk result (λ list. (p : Program) (here : Here) → Serves t.now p here →
        (rest mask : Mask) → ((x : ℕ) → has other.now x ≡ rest x) →
        ((x : ℕ) → either (assigned_parts parts.now) rest x ≡ mask x) → AreJoined p here mask b.now list.items) }
{
    let mut found = other.to_vec(b.allocator())?;
    note_parts(parts, &mut found)?;
    let list = registers(b.allocator(), t, b.variables(), found)?;
    Ok(list)
}

/// The variables of the joins of IF: all that a branch assigns or what is behind the branches, and how many of the branches, from
/// the first on, each of them lasts.
#[derive(Drop)]
pub struct Suffixes {
    pub variables: Vec<u32>,
    pub lasting: Vec<usize>,
}

/// Those of each branch of IF, with what is behind the branches.
pub fn of_suffixes(
    t: &Tables<'_>,
    b: &Making,
    parts: &[Branch],
    other: &[Stmt],
) -> Result<Suffixes, Memory>
    ensures { IfOk result (λ s. (p : Program) (here : Here) → Serves t.now p here →
        (i : ℕ) (mask : Mask) → i < length parts.now →
        ((x : ℕ) → either (assigned_parts (drop i parts.now)) (assigned_list other.now) x ≡ mask x) →
        AreJoined p here mask b.now (filter (λ x. nat_lt i (slice_index s.lasting.items x)) s.variables.items)) }
{
    let mut assigned = Vec::new(b.allocator());
    note_all(other, &mut assigned)?;
    let variables = of_branches(t, b, parts, assigned.as_slice())?;
    let lasting = lasting(b.allocator(), b.variables(), parts, assigned.as_slice())?;
    Ok(Suffixes { variables, lasting })
}

/// Those of the join of the branch of this number and those behind it.
pub fn of_suffix(alloc: Global, all: &Suffixes, number: usize) -> Result<Vec<u32>, Memory>
    ensures { IfOk result (λ list. list.items ≡ filter (λ x. nat_lt number (slice_index all.now.lasting.items x)) all.now.variables.items) }
{
    let list = still_assigned(
        alloc,
        all.variables.as_slice(),
        all.lasting.as_slice(),
        number,
    )?;
    Ok(list)
}

/// Of the body of a loop, with what is assigned otherwise.
pub fn of_body(t: &Tables<'_>, b: &Making, body: &[Stmt], other: &[u32]) -> Result<Vec<u32>, Memory>
    ensures { IfOk result (λ list. (p : Program) (here : Here) → Serves t.now p here →
        (rest mask : Mask) → ((x : ℕ) → has other.now x ≡ rest x) →
        ((x : ℕ) → either (assigned_list body.now) rest x ≡ mask x) → AreJoined p here mask b.now list.items) }
{
    let mut found = other.to_vec(b.allocator())?;
    note_all(body, &mut found)?;
    let list = registers(b.allocator(), t, b.variables(), found)?;
    Ok(list)
}

/// Of the parts of CASE.
pub fn of_cases(t: &Tables<'_>, b: &Making, parts: &[CasePart]) -> Result<Vec<u32>, Memory>
    ensures { IfOk result (λ list. (p : Program) (here : Here) → Serves t.now p here → AreJoined p here (assigned_cases parts.now) b.now list.items) }
{
    let mut found = Vec::new(b.allocator());
    note_cases(parts, &mut found)?;
    let list = registers(b.allocator(), t, b.variables(), found)?;
    Ok(list)
}

/// Of the parts of CASE on types.
pub fn of_types(t: &Tables<'_>, b: &Making, parts: &[TypePart]) -> Result<Vec<u32>, Memory>
    ensures { IfOk result (λ list. (p : Program) (here : Here) → Serves t.now p here → AreJoined p here (assigned_types parts.now) b.now list.items) }
{
    let mut found = Vec::new(b.allocator());
    note_types(parts, &mut found)?;
    let list = registers(b.allocator(), t, b.variables(), found)?;
    Ok(list)
}
