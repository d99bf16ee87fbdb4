//! Programs.

ghost use Rattle.std.specs.Prelude.{◌≡◌, ◌≤◌, length, None, IfOk, OnOk, IfErr};
ghost use Rattle.ssa_lowered.specs.Data.{layout};
ghost use Rattle.ssa_lowered.specs.Limits.{limits_from, limit_of};
ghost use Rattle.ssa_lowered.specs.Lowered.{procs_from, lowered};
ghost use Rattle.ssa_tables.specs.Faults.{Tells};
ghost use Rattle.ssa_tables.specs.Measured.{IsMeasured};
ghost use Rattle.ssa_tables.specs.Shared.{ServesAll};

use crate::procedure::lower_procedure;
use items::Items;
use ob_types::Program;
use ssa_core::Proc;
use ssa_exprs::ProgramTables;
use ssa_tables::{LowerFault, check_constants, program_tables};
use std::alloc::Global;

/// The procedures of a program, and the tables by which they were made, which serve its constants too.
#[derive(Drop)]
pub struct LoweredProgram {
    pub procedures: Items<Proc>,
    pub tables: ProgramTables,
}

/// The procedures of a program, in the layout in use. A program is refused by the first of these limits that it
/// passes: over 4,096 procedures (52), over 1,048,576 cells of globals (53); then, procedure by procedure, over 1,048,576 cells
/// of local data (59), and too many values (50) or blocks (51), whichever comes first, with the procedure's number; then over
/// 262,144 cells of constants (58).
pub fn lower(alloc: Global, program: &Program) -> Result<Items<Proc>, LowerFault>
    requires { IsMeasured program.now }
    ensures ok { IfOk result (λ list. list ≡ lowered program.now) }
    ensures within { OnOk result (limit_of program.now ≡ None) }
    ensures limit { IfErr result (λ e. Tells e (limit_of program.now)) }
{
    match lower_with_tables(alloc, program) {
        Ok(made) => {
            let LoweredProgram { procedures, .. } = made;
            Ok(procedures)
        }
        Err(e) => Err(e),
    }
}

/// The same, with the tables that serve all procedures of the program, which are made once.
pub fn lower_with_tables(alloc: Global, program: &Program) -> Result<LoweredProgram, LowerFault>
    requires { IsMeasured program.now }
    ensures ok { IfOk result (λ made. made.procedures ≡ lowered program.now) }
    ensures tables { IfOk result (λ made. ServesAll made.tables program.now) }
    ensures within { OnOk result (limit_of program.now ≡ None) }
    ensures limit { IfErr result (λ e. Tells e (limit_of program.now)) }
{
    let tables = match program_tables(alloc, program) {
        Ok(tables) => tables,
        Err(e) => return Err(e),
    };
    let procedures = match all_procedures(alloc, &tables, program) {
        Ok(procedures) => procedures,
        Err(e) => return Err(e),
    };
    match check_constants(program) {
        Ok(_) => Ok(LoweredProgram { procedures, tables }),
        Err(e) => Err(e),
    }
}

/// All procedures, one after the other.
fn all_procedures(
    alloc: Global,
    tables: &ProgramTables,
    program: &Program,
) -> Result<Items<Proc>, LowerFault>
    requires measured { IsMeasured program.now }
    requires serves { ServesAll tables.now program.now }
    requires few { length program.now.procedures ≤ 4096 }
    ensures ok { IfOk result (λ list. list ≡ procs_from program.now (layout program.now.types) 0 program.now.procedures) }
    ensures within { OnOk result (limits_from program.now (layout program.now.types) 0 program.now.procedures ≡ None) }
    ensures limit { IfErr result (λ e. Tells e (limits_from program.now (layout program.now.types) 0 program.now.procedures)) }
{
    let procedures = program.procedures.as_slice();
    let mut list = Items::new(alloc);
    for f in 0..procedures.len() {
        let made = match lower_procedure(alloc, tables, program, f as u32, &procedures[f]) {
            Ok(made) => made,
            Err(e) => return Err(e),
        };
        match list.push(made) {
            Ok(_) => {}
            Err(_) => return Err(LowerFault::Memory),
        }
    }
    Ok(list)
}
