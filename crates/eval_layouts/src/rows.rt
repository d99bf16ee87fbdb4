//! Where fields and variables stand, and how many texts stand before those of each procedure.

ghost use Rattle.std.specs.Prelude.{◌≡◌, length, take, IfOk, IfSome};
ghost use Rattle.std.specs.Prelude.{◌+◌, sum_by};
ghost use Rattle.ob_types.specs.Layout.{cells as cells_of, record_cells as cells_of_record, cells_of_all, types_of, field_place, base_cells, kind_of};
ghost use Rattle.ob_types.specs.Meaning.{globals_of, locals_of, procedure_of, texts_of, structured_by, zeroed};
ghost use Rattle.ob_types.specs.Table.{Table};
ghost use Rattle.eval_layouts.specs.Tables.{TableOf, RowsOf};
ghost use Rattle.eval_layouts.specs.Lays.{IsMeasured};

use crate::row::{Row, item};
use crate::sizes::record_cells;
use items::Items;
use ob_types::{Procedure, Program, RecordType, TypeKind, Types};
use outside::Memory;
use std::alloc::Global;

/// Where the fields that a record type adds stand: behind its base's cells.
fn field_row(
    alloc: Global,
    types: &Types,
    sizes: &[u64],
    declared: &RecordType,
) -> Result<Items<u64>, Memory>
    requires measured { IsMeasured types.now }
    requires known { TableOf (cells_of types.now) sizes.now }
    ensures { IfOk result (λ row. TableOf (λ f. base_cells declared.now.base (cells_of_record types.now) + cells_of_all types.now (take f (types_of declared.now.fields))) row) }
{
    let first = match declared.base {
        None => 0,
        Some(b) => match record_cells(types, b) {
            None => return Err(Memory),
            Some(n) => n,
        },
    };
    let mut row = Row::new(alloc, first);
    for field in declared.fields.as_slice() {
        row.add(sizes, field.type_number)?;
    }
    Ok(row.places)
}

/// Where all fields stand.
pub fn field_rows(alloc: Global, types: &Types, sizes: &[u64]) -> Result<Vec<Items<u64>>, Memory>
    requires measured { IsMeasured types.now }
    requires known { TableOf (cells_of types.now) sizes.now }
    ensures { IfOk result (λ rows. RowsOf (field_place types.now) rows.items) }
{
    let mut rows = Vec::new(alloc);
    for declared in types.records() {
        rows.push(field_row(alloc, types, sizes, declared)?)?;
    }
    Ok(rows)
}

/// Where the variables of all modules stand.
pub fn global_rows(
    alloc: Global,
    program: &Program,
    sizes: &[u64],
) -> Result<Vec<Items<u64>>, Memory>
    requires { TableOf (cells_of program.now.types) sizes.now }
    ensures { IfOk result (λ rows. RowsOf (λ m v. cells_of_all program.now.types (take v (globals_of program.now m))) rows.items) }
{
    let mut rows = Vec::new(alloc);
    for module in program.modules.as_slice() {
        let mut row = Row::new(alloc, 0);
        row.add_all(sizes, module.variables.as_slice())?;
        rows.push(row.places)?;
    }
    Ok(rows)
}

/// Where the variables of a procedure stand: its scalar value parameters, then its local variables.
fn local_row(alloc: Global, sizes: &[u64], procedure: &Procedure) -> Result<Items<u64>, Memory>
    ensures { IfOk result (λ row. (t : Table) → TableOf (cells_of t) sizes.now → TableOf (λ v. cells_of_all t (take v (locals_of procedure.now))) row) }
{
    let mut row = Row::new(alloc, 0);
    for formal in procedure.formals.as_slice() {
        row.add_value(sizes, formal)?;
    }
    row.add_all(sizes, procedure.locals.as_slice())?;
    Ok(row.places)
}

/// Where the variables of all procedures stand.
pub fn local_rows(
    alloc: Global,
    program: &Program,
    sizes: &[u64],
) -> Result<Vec<Items<u64>>, Memory>
    requires { TableOf (cells_of program.now.types) sizes.now }
    ensures { IfOk result (λ rows. RowsOf (λ g v. cells_of_all program.now.types (take v (locals_of (procedure_of program.now g)))) rows.items) }
{
    let mut rows = Vec::new(alloc);
    for procedure in program.procedures.as_slice() {
        rows.push(local_row(alloc, sizes, procedure)?)?;
    }
    Ok(rows)
}

/// How many texts stand before those of each procedure.
pub fn text_places(alloc: Global, program: &Program) -> Result<Vec<u64>, Memory>
    ensures { IfOk result (λ list. TableOf (λ g. length (texts_of (take g program.now.procedures))) list.items) }
{
    let mut list = Vec::new(alloc);
    let mut count: u64 = 0;
    for procedure in program.procedures.as_slice() {
        list.push(count)?;
        match count.checked_add(procedure.texts.len() as u64) {
            None => return Err(Memory),
            Some(more) => count = more,
        }
    }
    Ok(list)
}

/// The cells of variables of these types.
pub fn added_cells(sizes: &[u64], kinds: &[u32]) -> Option<u64>
    ensures { IfSome result (λ n. (t : Table) → TableOf (cells_of t) sizes.now → n ≡ cells_of_all t kinds.now) }
{
    let mut count: u64 = 0;
    for kind in kinds {
        match item(sizes, *kind) {
            None => return None,
            Some(n) => match count.checked_add(n) {
                None => return None,
                Some(more) => count = more,
            },
        }
    }
    Some(count)
}

/// The cells of the local variables of each procedure.
pub fn own_cells(alloc: Global, program: &Program, sizes: &[u64]) -> Result<Vec<u64>, Memory>
    requires { TableOf (cells_of program.now.types) sizes.now }
    ensures { IfOk result (λ list. TableOf (λ g. cells_of_all program.now.types (procedure_of program.now g).locals) list.items) }
{
    let mut list = Vec::new(alloc);
    for procedure in program.procedures.as_slice() {
        match added_cells(sizes, procedure.locals.as_slice()) {
            None => return Err(Memory),
            Some(n) => list.push(n)?,
        }
    }
    Ok(list)
}

/// The cells of a variable that is an array or a record; none of a scalar.
fn structured(types: &Types, sizes: &[u64], kind: u32) -> Option<u64>
    requires { TableOf (cells_of types.now) sizes.now }
    ensures { IfSome result (λ n. n ≡ structured_by (kind_of types.now kind) (cells_of types.now kind)) }
{
    match types.kind(kind) {
        TypeKind::Array { .. } => item(sizes, kind),
        TypeKind::Record(_) => item(sizes, kind),
        _ => Some(0),
    }
}

/// The cells of those of these variables that are arrays or records.
fn structured_cells(types: &Types, sizes: &[u64], kinds: &[u32]) -> Option<u64>
    requires { TableOf (cells_of types.now) sizes.now }
    ensures { IfSome result (λ n. n ≡ sum_by (λ k. structured_by (kind_of types.now k) (cells_of types.now k)) kinds.now) }
{
    let mut count: u64 = 0;
    for kind in kinds {
        match structured(types, sizes, *kind) {
            None => return None,
            Some(n) => match count.checked_add(n) {
                None => return None,
                Some(more) => count = more,
            },
        }
    }
    Some(count)
}

/// The cells of the local variables of each procedure that are arrays or records.
pub fn zeroed_cells(alloc: Global, program: &Program, sizes: &[u64]) -> Result<Vec<u64>, Memory>
    requires { TableOf (cells_of program.now.types) sizes.now }
    ensures { IfOk result (λ list. TableOf (λ g. zeroed program.now (procedure_of program.now g)) list.items) }
{
    let mut list = Vec::new(alloc);
    for procedure in program.procedures.as_slice() {
        match structured_cells(&program.types, sizes, procedure.locals.as_slice()) {
            None => return Err(Memory),
            Some(n) => list.push(n)?,
        }
    }
    Ok(list)
}
