//! What all procedures of a program share.

ghost use Rattle.std.specs.Prelude.{◌≡◌, ◌+◌, ◌*◌, ◌≤◌, ℕ, min, length, None, IfOk, OnOk, IfErr};
ghost use Rattle.ob_types.specs.Layout.{cells};
ghost use Rattle.ssa_tables.specs.Faults.{Tells, first_limit, last_limit};
ghost use Rattle.ssa_tables.specs.Measured.{IsMeasured};
ghost use Rattle.ssa_tables.specs.Places.{module_finish, type_cells_by};
ghost use Rattle.ssa_tables.specs.Shared.{ServesAll};

use crate::cells::{constant_cells, module_cells};
use crate::fault::LowerFault;
use crate::fields::field_offsets;
use crate::globals::{module_places, modules_end};
use crate::places::beyond;
use crate::sizes::{
    cells_of_records, record_levels, record_sizes, type_cells, type_extents, type_sizes,
};
use crate::strings::{first_strings, string_places};
use items::Items;
use ob_types::Program;
use outside::Memory;
use ssa_exprs::ProgramTables;
use std::alloc::Global;

/// The tables that all procedures of a program share. It is refused, with limit 52, where it has over 4,096 procedures, and
/// then, with limit 53, where its modules' variables have over 1,048,575 cells.
pub fn program_tables(alloc: Global, program: &Program) -> Result<ProgramTables, LowerFault>
    requires { IsMeasured program.now }
    ensures ok { IfOk result (λ t. ServesAll t program.now) }
    ensures within { OnOk result (first_limit program.now ≡ None) }
    ensures limit { IfErr result (λ e. Tells e (first_limit program.now)) }
{
    if program.procedures.len() > 4096 {
        return Err(LowerFault::Limit {
            number: 52,
            index: 0,
        });
    }
    let counts = match type_cells(alloc, &program.types) {
        Ok(counts) => counts,
        Err(_) => return Err(LowerFault::Memory),
    };
    if module_cells(counts.as_slice(), program.modules.as_slice()) > 1048576 {
        return Err(LowerFault::Limit {
            number: 53,
            index: 0,
        });
    }
    match shared(alloc, program, counts) {
        Ok(tables) => Ok(tables),
        Err(_) => Err(LowerFault::Memory),
    }
}

/// The program is refused, with limit 58, where its descriptors and strings have over 262,144 cells.
pub fn check_constants(program: &Program) -> Result<(), LowerFault>
    ensures within { OnOk result (last_limit program.now ≡ None) }
    ensures limit { IfErr result (λ e. Tells e (last_limit program.now)) }
{
    if constant_cells(program) > 262144 {
        return Err(LowerFault::Limit {
            number: 58,
            index: 0,
        });
    }
    Ok(())
}

/// All tables, by the cells of types.
fn shared(alloc: Global, program: &Program, type_cells: Items<u32>) -> Result<ProgramTables, Memory>
    requires measured { IsMeasured program.now }
    requires known { (k : ℕ) → type_cells_by type_cells k ≡ cells program.now.types k }
    requires few { module_finish (type_cells_by type_cells) 1 program.now.modules ≤ 1048576 }
    ensures { IfOk result (λ t. ServesAll t program.now) }
{
    let types = &program.types;
    let modules = program.modules.as_slice();
    let procedures = program.procedures.as_slice();
    let extents = type_extents(alloc, types)?;
    let sizes = type_sizes(alloc, extents.as_slice())?;
    let records = record_sizes(alloc, types)?;
    let cells = cells_of_records(alloc, types)?;
    let levels = record_levels(alloc, types)?;
    let globals = module_places(alloc, sizes.as_slice(), 8, modules)?;
    let descriptors = modules_end(sizes.as_slice(), 8, modules);
    let offsets = field_offsets(alloc, types, extents.as_slice(), records.as_slice())?;
    let first = behind_descriptors(descriptors, types.records().len());
    let texts = string_places(alloc, first, procedures)?;
    let first_texts = first_strings(alloc, procedures)?;
    Ok(ProgramTables {
        globals,
        descriptors,
        levels,
        offsets,
        sizes,
        records,
        cells,
        type_cells,
        texts,
        first_texts,
    })
}

/// Where the descriptors of so many record types end.
fn behind_descriptors(descriptors: u32, records: usize) -> u32
    ensures { result ≡ min (descriptors + 128 * records) 16777215 }
{
    if records < 131072 {
        beyond(descriptors, 128 * records as u32)
    } else {
        16777215
    }
}
