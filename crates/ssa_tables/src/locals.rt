//! A procedure's variables: which are in memory, and where.

ghost use Rattle.std.specs.Prelude.{◌≡◌, ◌+◌, ◌≤◌, ◌<◌, ◌++◌, ℕ, map, min, length, replicate, false, slice_index_or, Option, Some, None, IfOk, OnOk, IfErr};
ghost use Rattle.ob_types.specs.Layout.{kind_of, cells, cells_of_all};
ghost use Rattle.ob_types.specs.Meaning.{is_value};
ghost use Rattle.ob_types.specs.declared.program.Program.{Program};
ghost use Rattle.ssa_assigned.specs.Assigned.{has};
ghost use Rattle.ssa_lowered.specs.Data.{layout, rounded};
ghost use Rattle.ssa_lowered.specs.Variables.{is_structured, value_parameters, words_by, words_of};
ghost use Rattle.ssa_tables.specs.Faults.{Tells};
ghost use Rattle.ssa_tables.specs.Measured.{HasSizes};
ghost use Rattle.ssa_tables.specs.Places.{finish, size_by, type_cells_by};
ghost use Rattle.ssa_tables.specs.Local.{AreLocals, declared_in, pair_of, marked, place_in, ends_behind, placed_by, ends_by, structured_size, local_limit};

use crate::cells::declared_cells;
use crate::fault::LowerFault;
use crate::lent::lend_in_body;
use crate::places::{behind, beyond, size_in};
use items::Items;
use ob_types::{Formal, Mode, Procedure, TypeKind, Types};
use outside::Memory;
use std::alloc::Global;

/// A scalar value parameter, or a local variable.
#[derive(Clone, Copy)]
pub struct Variable {
    /// Its type.
    pub type_number: u32,
    /// Its argument word.
    pub word: Option<u32>,
    /// How many bytes into the local data it begins, where it is in memory.
    pub place: Option<u32>,
}

/// The variables of a procedure, the scalar value parameters first, and the bytes of its local data.
#[derive(Drop)]
pub struct Locals {
    pub variables: Items<Variable>,
    /// The cells of all of them, those in registers included.
    pub cells: u32,
    /// The bytes of those in memory.
    pub bytes: u32,
    /// Those of arrays and records, which stand first.
    pub structured: u32,
}

/// Variables with their places, and where the last scalar in memory ends.
#[derive(Drop)]
struct Arranged {
    variables: Items<Variable>,
    bytes: u32,
}

/// Where the next array or record and the next scalar in memory stand.
#[derive(Clone, Copy)]
pub struct Ends {
    pub structured: u32,
    pub scalar: u32,
}

/// The variables of a procedure, by the sizes and the cells of all types; it is refused where they have over 1,048,576 cells.
pub fn local_data(
    alloc: Global,
    types: &Types,
    sizes: &[u32],
    counts: &[u32],
    f: u32,
    procedure: &Procedure,
) -> Result<Locals, LowerFault>
    requires sizes { HasSizes types.now }
    requires words { words_of procedure.now.formals ≤ 24 }
    requires known { (k : ℕ) → size_by sizes.now k ≡ (layout types.now).bytes k }
    requires counted { (k : ℕ) → type_cells_by counts.now k ≡ cells types.now k }
    ensures ok { IfOk result (λ x. (p : Program) → p.types ≡ types.now → AreLocals x p f procedure.now) }
    ensures within { OnOk result ((p : Program) → p.types ≡ types.now → local_limit p f procedure.now ≡ None) }
    ensures limit { IfErr result (λ e. (p : Program) → p.types ≡ types.now → Tells e (local_limit p f procedure.now)) }
{
    let declared = match declared(alloc, procedure) {
        Ok(declared) => declared,
        Err(_) => return Err(LowerFault::Memory),
    };
    let count = declared_cells(counts, declared.as_slice());
    if count > 1048576 {
        return Err(LowerFault::Limit {
            number: 59,
            index: f,
        });
    }
    match placed(alloc, types, sizes, procedure, declared.as_slice(), count) {
        Ok(locals) => Ok(locals),
        Err(_) => Err(LowerFault::Memory),
    }
}

/// The variables of a procedure, each without a place.
fn declared(alloc: Global, procedure: &Procedure) -> Result<Vec<Variable>, Memory>
    requires { words_of procedure.now.formals ≤ 24 }
    ensures { IfOk result (λ list. map pair_of list.items ≡ declared_in procedure.now) }
{
    let count = procedure
        .formals
        .len()
        .saturating_add(procedure.locals.len());
    let mut list = Vec::with_capacity(alloc, count)?;
    add_parameters(&mut list, procedure.formals.as_slice())?;
    add_locals(&mut list, procedure.locals.as_slice())?;
    Ok(list)
}

/// Adds the scalar value parameters, each with its argument word.
fn add_parameters(list: &mut Vec<Variable>, formals: &[Formal]) -> Result<(), Memory>
    requires { words_of formals.now ≤ 24 }
    ensures { OnOk result (map pair_of list.new.items ≡ map pair_of list.old.items ++ value_parameters 0 formals.now) }
{
    let mut word: u32 = 0;
    for x in formals {
        if is_value(x.mode) {
            list.push(Variable {
                type_number: x.type_number,
                word: Some(word),
                place: None,
            })?;
        }
        word += words(x.mode);
    }
    Ok(())
}

/// Adds the local variables.
fn add_locals(list: &mut Vec<Variable>, types: &[u32]) -> Result<(), Memory>
    ensures { OnOk result (map pair_of list.new.items ≡ map pair_of list.old.items ++ map (λ k. (k, None)) types.now) }
{
    for k in types {
        list.push(Variable {
            type_number: *k,
            word: None,
            place: None,
        })?;
    }
    Ok(())
}

/// Whether a parameter is a scalar value parameter.
fn is_value(mode: Mode) -> bool
    ensures { result ≡ is_value mode }
{
    match mode {
        Mode::Value => true,
        _ => false,
    }
}

/// The argument words of a parameter.
pub fn words(mode: Mode) -> u32
    ensures { result ≡ words_by mode }
{
    match mode {
        Mode::Value => 1,
        Mode::Place => 1,
        Mode::Record => 2,
        Mode::Open => 2,
    }
}

/// Where the last array or record ends.
fn structured_finish(types: &Types, sizes: &[u32], list: &[Variable]) -> u32
    ensures { result ≡ finish (structured_size types.now sizes.now) 0 list.now }
{
    let mut at = 0;
    for v in list {
        at = behind_structured(types, sizes, at, *v);
    }
    at
}

/// Where the next array or record begins, behind a variable if that is one.
fn behind_structured(types: &Types, sizes: &[u32], at: u32, v: Variable) -> u32
    ensures { result ≡ min (at + structured_size types.now sizes.now v) 16777215 }
{
    if is_structured(types.kind(v.type_number)) {
        behind(at, size_in(sizes, v.type_number))
    } else {
        beyond(at, 0)
    }
}

/// Whether a type is an array or a record.
pub fn is_structured(kind: TypeKind) -> bool
    ensures { result ≡ is_structured kind }
{
    match kind {
        TypeKind::Array { .. } => true,
        TypeKind::Record(_) => true,
        _ => false,
    }
}

/// Marks for the variables whose addresses are made.
fn marks(alloc: Global, count: usize, lent: &[u32]) -> Result<Vec<bool>, Memory>
    ensures { IfOk result (λ list. list.items ≡ marked lent.now (replicate count false)) }
{
    let mut list = vec![in alloc; false; count]?;
    for x in lent {
        let at = *x as usize;
        if at < list.len() {
            list[at] = true;
        }
    }
    Ok(list)
}

/// The variables of a procedure with their places, by how many cells they have.
fn placed(
    alloc: Global,
    types: &Types,
    sizes: &[u32],
    procedure: &Procedure,
    declared: &[Variable],
    count: u32,
) -> Result<Locals, Memory>
    requires sizes { HasSizes types.now }
    requires known { (k : ℕ) → size_by sizes.now k ≡ (layout types.now).bytes k }
    requires declared { map pair_of declared.now ≡ declared_in procedure.now }
    requires counted { count ≡ cells_of_all types.now (map (λ v. v.type_number) declared.now) }
    requires few { count ≤ 1048576 }
    ensures { IfOk result (λ x. (p : Program) (f : ℕ) → p.types ≡ types.now → AreLocals x p f procedure.now) }
{
    let lent = lend_in_body(alloc, procedure)?;
    let marks = marks(alloc, declared.len(), lent.as_slice())?;
    let structured = structured_finish(types, sizes, declared);
    let placed = place_all(alloc, types, sizes, marks.as_slice(), declared, structured)?;
    Ok(Locals {
        variables: placed.variables,
        cells: count,
        bytes: placed.bytes,
        structured,
    })
}

/// Variables one after the other, arrays and records from the start on and scalars behind all of them.
fn place_all(
    alloc: Global,
    types: &Types,
    sizes: &[u32],
    marks: &[bool],
    declared: &[Variable],
    structured: u32,
) -> Result<Arranged, Memory>
    requires { length marks.now ≡ length declared.now }
    ensures variables { IfOk result (λ x. x.variables ≡ placed_by types.now sizes.now marks.now (record { structured = 0; scalar = structured }) declared.now) }
    ensures bytes { IfOk result (λ x. x.bytes ≡ (ends_by types.now sizes.now marks.now (record { structured = 0; scalar = structured }) declared.now).scalar) }
{
    let mut variables = Items::from_vec(Vec::with_capacity(alloc, declared.len())?);
    let mut ends = Ends {
        structured: 0,
        scalar: structured,
    };
    for i in 0..declared.len() {
        let v = declared[i];
        let whole = is_structured(types.kind(v.type_number));
        variables.push(Variable {
            type_number: v.type_number,
            word: v.word,
            place: place_for(whole, marks[i], ends),
        })?;
        ends = next_ends(whole, marks[i], size_in(sizes, v.type_number), ends);
    }
    Ok(Arranged {
        variables,
        bytes: ends.scalar,
    })
}

/// The place of a variable; none where it is in a register.
fn place_for(structured: bool, lent: bool, ends: Ends) -> Option<u32>
    ensures { result ≡ place_in structured lent ends }
{
    if structured {
        Some(ends.structured)
    } else if lent {
        Some(ends.scalar)
    } else {
        None
    }
}

/// Where the next variables stand, behind one of some bytes.
fn next_ends(structured: bool, lent: bool, bytes: u32, ends: Ends) -> Ends
    ensures { result ≡ ends_behind structured lent (rounded bytes) ends }
{
    if structured {
        Ends {
            structured: behind(ends.structured, bytes),
            scalar: ends.scalar,
        }
    } else if lent {
        Ends {
            structured: ends.structured,
            scalar: beyond(ends.scalar, 8),
        }
    } else {
        ends
    }
}
