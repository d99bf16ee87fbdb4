//! What the image has besides its code.

ghost use Rattle.std.specs.Prelude.{◌≡◌, map, None, IfOk};
ghost use Rattle.ssa_lowered.specs.Limits.{limit_of};
ghost use Rattle.ssa_tables.specs.Shared.{ServesAll};
ghost use Rattle.compiled_runs.specs.Compiled.{flags_of, name_of, data_of};

use back_end::{ImageData, ProcName};
use image_form::Bytes;
use lir_core::Items;
use ob_types::{Procedure, Program};
use outside::Memory;
use ssa_exprs::ProgramTables;
use ssa_tables::program_constants;
use std::alloc::Global;

/// Where the globals start.
const DATA_BASE: u32 = 0x1000_0000;

/// A program's data, by the tables of its lowering.
pub fn program_data(
    alloc: Global,
    tables: &ProgramTables,
    program: &Program,
) -> Result<ImageData, Memory>
    requires tables { ServesAll tables.now program.now }
    requires within { limit_of program.now ≡ None }
    ensures { IfOk result (λ made. made ≡ data_of program.now) }
{
    let constants = program_constants(alloc, tables, program, DATA_BASE)?;
    let names = names_of(alloc, program.procedures.as_slice())?;
    Ok(ImageData {
        flags: flags(program),
        globals: tables.descriptors,
        constants: Bytes::new(constants),
        names: Items::from_vec(names),
    })
}

/// Whether some module reads input: 1, else 0.
fn flags(program: &Program) -> u32
    ensures { result ≡ flags_of program.now }
{
    if program.imports_in { 1 } else { 0 }
}

/// Where procedures stand in the texts.
fn names_of(alloc: Global, procedures: &[Procedure]) -> Result<Vec<ProcName>, Memory>
    ensures { IfOk result (λ names. names.items ≡ map name_of procedures.now) }
{
    let mut names = Vec::with_capacity(alloc, procedures.len())?;
    for procedure in procedures {
        names.push(ProcName {
            module: procedure.module,
            line: procedure.line,
        })?;
    }
    Ok(names)
}
