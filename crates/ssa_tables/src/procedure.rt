//! What belongs to one procedure.

ghost use Rattle.std.specs.Prelude.{◌≡◌, ◌≤◌, map, Some, None, slice_get, IfOk, OnOk, IfErr};
ghost use Rattle.ssa_lowered.specs.Data.{layout};
ghost use Rattle.ssa_lowered.specs.Lowered.{here_of};
ghost use Rattle.ssa_lowered.specs.Variables.{words_of};
ghost use Rattle.ssa_exprs.specs.Tables.{Serves, first_text_in};
ghost use Rattle.ssa_tables.specs.Faults.{Tells};
ghost use Rattle.ssa_tables.specs.Measured.{IsMeasured};
ghost use Rattle.ssa_tables.specs.Shared.{ServesAll};
ghost use Rattle.ssa_tables.specs.Local.{AreLocals, local_limit, distance, name_by, parameters_from};

use crate::fault::LowerFault;
use crate::locals::{Locals, local_data, words};
use items::Items;
use ob_types::{Formal, Mode, Procedure, Program};
use outside::Memory;
use ssa_exprs::{Named, ProgramTables, Tables};
use std::alloc::Global;

/// A procedure that is lowered next: its tables and its variables.
#[derive(Drop)]
pub struct Entered<'a> {
    pub tables: Tables<'a>,
    pub locals: Locals,
}

/// The tables and the variables of a procedure, whose number is f, by the tables of its program. It is refused, with limit 59,
/// where its variables have over 1,048,576 cells.
pub fn enter<'a>(
    alloc: Global,
    tables: &'a ProgramTables,
    program: &Program,
    f: u32,
    procedure: &Procedure,
) -> Result<Entered<'a>, LowerFault>
    requires measured { IsMeasured program.now }
    requires there { slice_get program.now.procedures f ≡ Some procedure.now }
    requires serves { ServesAll tables.now program.now }
    ensures ok { IfOk result (λ x. AreLocals x.locals program.now f procedure.now) }
    ensures serves { IfOk result (λ x. Serves x.tables program.now (here_of program.now (layout program.now.types) f procedure.now)) }
    ensures within { OnOk result (local_limit program.now f procedure.now ≡ None) }
    ensures limit { IfErr result (λ e. Tells e (local_limit program.now f procedure.now)) }
{
    let sizes = tables.sizes.as_slice();
    let counts = tables.type_cells.as_slice();
    let locals = match local_data(alloc, &program.types, sizes, counts, f, procedure) {
        Ok(locals) => locals,
        Err(e) => return Err(e),
    };
    match own_tables(alloc, tables, f, procedure, &locals) {
        Ok(tables) => Ok(Entered { tables, locals }),
        Err(_) => Err(LowerFault::Memory),
    }
}

/// The tables of a procedure with these variables.
fn own_tables<'a>(
    alloc: Global,
    program: &'a ProgramTables,
    f: u32,
    procedure: &Procedure,
    locals: &Locals,
) -> Result<Tables<'a>, Memory>
    requires { words_of procedure.now.formals ≤ 24 }
    ensures program { IfOk result (λ t. t.program.now ≡ program.now) }
    ensures first { IfOk result (λ t. t.first_text ≡ first_text_in program.now f) }
    ensures parameters { IfOk result (λ t. t.parameters ≡ parameters_from 0 procedure.now.formals) }
    ensures locals { IfOk result (λ t. t.locals ≡ map (λ v. distance locals.now.bytes v.place) locals.now.variables) }
{
    let parameters = parameters(alloc, procedure.formals.as_slice())?;
    let distances = distances(alloc, locals)?;
    Ok(Tables {
        program,
        first_text: program.first_text(f),
        parameters,
        locals: distances,
    })
}

/// The distance of each variable in memory from the end of the local data.
fn distances(alloc: Global, locals: &Locals) -> Result<Items<Option<u32>>, Memory>
    ensures { IfOk result (λ list. list ≡ map (λ v. distance locals.now.bytes v.place) locals.now.variables) }
{
    let variables = locals.variables.as_slice();
    let mut list = Items::from_vec(Vec::with_capacity(alloc, variables.len())?);
    for v in variables {
        list.push(distance_from(locals.bytes, v.place))?;
    }
    Ok(list)
}

/// The distance of a place from the end.
fn distance_from(bytes: u32, place: Option<u32>) -> Option<u32>
    ensures { result ≡ distance bytes place }
{
    match place {
        None => None,
        Some(n) => Some(bytes.saturating_sub(n)),
    }
}

/// What parameters name.
fn parameters(alloc: Global, formals: &[Formal]) -> Result<Items<Named>, Memory>
    requires { words_of formals.now ≤ 24 }
    ensures { IfOk result (λ list. list ≡ parameters_from 0 formals.now) }
{
    let mut list = Items::from_vec(Vec::with_capacity(alloc, formals.len())?);
    let mut word: u32 = 0;
    for x in formals {
        list.push(name_of(x.mode, word))?;
        word += words(x.mode);
    }
    Ok(list)
}

/// What a parameter names, which begins at an argument word.
fn name_of(mode: Mode, word: u32) -> Named
    requires { word ≤ 24 }
    ensures { result ≡ name_by mode word }
{
    match mode {
        Mode::Value => Named::At(word),
        Mode::Place => Named::At(word),
        Mode::Record => Named::Beside(word, word + 1),
        Mode::Open => Named::Beside(word, word + 1),
    }
}
