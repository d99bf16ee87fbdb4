//! A procedure, from its tables to its blocks.

ghost use Rattle.std.specs.Prelude.{◌≡◌, Some, None, slice_get, IfOk, OnOk, IfErr};
ghost use Rattle.ssa_lowered.specs.Data.{layout};
ghost use Rattle.ssa_lowered.specs.Limits.{limit_in};
ghost use Rattle.ssa_lowered.specs.Lowered.{proc_of};
ghost use Rattle.ssa_tables.specs.Faults.{Tells};
ghost use Rattle.ssa_tables.specs.Measured.{IsMeasured};
ghost use Rattle.ssa_tables.specs.Shared.{ServesAll};
ghost use Rattle.ssa_build.specs.Bodies.{completed};

use crate::body::lower_body;
use crate::entry::argument_words;
use crate::finish::{all_blocks, places};
use block_runs::End;
use ob_types::{Procedure, Program};
use outside::Memory;
use ssa_core::Proc;
use ssa_exprs::{Making, ProgramTables};
use ssa_tables::{Entered, Locals, LowerFault, enter};
use std::alloc::Global;

/// Procedure number f of a program, in the layout in use, by the tables that all procedures share, in any order of them. It is
/// refused where it passes a limit: over 1,048,576 cells of local data (59), and too many values (50) or blocks (51), whichever
/// comes first, with the procedure's number.
pub fn lower_procedure(
    alloc: Global,
    tables: &ProgramTables,
    program: &Program,
    f: u32,
    procedure: &Procedure,
) -> Result<Proc, LowerFault>
    requires measured { IsMeasured program.now }
    requires there { slice_get program.now.procedures f ≡ Some procedure.now }
    requires serves { ServesAll tables.now program.now }
    ensures ok { IfOk result (λ made. made ≡ proc_of program.now (layout program.now.types) f procedure.now) }
    ensures within { OnOk result (limit_in program.now (layout program.now.types) f procedure.now ≡ None) }
    ensures limit { IfErr result (λ e. Tells e (limit_in program.now (layout program.now.types) f procedure.now)) }
{
    let entered = match enter(alloc, tables, program, f, procedure) {
        Ok(entered) => entered,
        Err(e) => return Err(e),
    };
    let Entered { tables, locals } = entered;
    let words = argument_words(procedure.formals.as_slice());
    let mut making = Making::new(alloc, words);
    match making.reserve() {
        Ok(_) => {}
        Err(_) => return Err(LowerFault::Memory),
    }
    let result = match lower_body(
        &tables,
        &mut making,
        &program.types,
        procedure,
        &locals,
        words,
    ) {
        Ok(result) => result,
        Err(_) => return Err(LowerFault::Memory),
    };
    if let Some(number) = making.over() {
        return Err(LowerFault::Limit { number, index: f });
    }
    match complete(alloc, making, procedure, &locals, words, result) {
        Ok(made) => Ok(made),
        Err(_) => Err(LowerFault::Memory),
    }
}

/// The procedure that was made.
fn complete(
    alloc: Global,
    making: Making,
    procedure: &Procedure,
    locals: &Locals,
    words: u32,
    answer: Option<u32>,
) -> Result<Proc, Memory>
    ensures { IfOk result (λ made. made ≡ completed making words answer procedure.now locals.now) }
{
    let places = places(alloc, making.labels(), making.bounds())?;
    let last = End::Return(answer);
    let values = making.values();
    let count = making.block() as usize + 1;
    let pieces = making.into_pieces();
    let blocks = all_blocks(alloc, places.as_slice(), pieces, count, words, last)?;
    Ok(Proc {
        blocks,
        values,
        args: words,
        counted: !procedure.is_body,
        local_cells: u64::from(locals.cells),
        local_bytes: u64::from(locals.bytes),
    })
}
