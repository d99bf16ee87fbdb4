//! Procedures whose scopes are opened (Oberon-07 report, section 10).

ghost use Rattle.std.specs.Prelude.{◌≡◌, ◌<◌, ◌≤◌, [], ◌∷◌, length, is_none, is_some, false, OnOk, IfOk, IfErr};
ghost use Rattle.ob_syntax.specs.Plain.{plain_option, plain_formals};
ghost use Rattle.ob_judge.specs.Making.{Making};
ghost use Rattle.ob_judge.specs.Modules.{SoFar};
ghost use Rattle.ob_judge.specs.Declarations.{heading as judged_heading};
ghost use Rattle.check_procedures.specs.lines.Lines.{IsLineTable};
ghost use Rattle.legal_tables.specs.Promised.{HasLegalTypes};
ghost use Rattle.judged_outlines.specs.Upright.{Upright};
ghost use Rattle.check_types.specs.steps.Answers.{Answers};
ghost use Rattle.check_making.specs.Making.{AreNumbered, IsSettled};
ghost use Rattle.check_making.specs.parameters.Headings.{IsHeading};
ghost use Rattle.check_making.specs.parameters.Stands.{Stands};
ghost use Rattle.check_making.specs.scopes.Building.{IsLater, Represents};
ghost use Rattle.check_making.specs.scopes.Built.{BuildsAs, IsNumber};
ghost use Rattle.check_making.specs.scopes.Scopes.{deeper};
ghost use Rattle.check_procedures.specs.Parts.{next_procedure as judged_next, opening};
ghost use Rattle.check_procedures.specs.UnderWay.{IsUnderWay};
ghost use Rattle.check_procedures.specs.Open.{CanBeClosed, IsEntered, IsOpened};

use crate::counting::count_signatures;
use check_making::headings::heading;
use check_making::parameters::Heading;
use check_making::scopes::{Building, Outer, enter, inside};
use check_making::{Forward, Surroundings};
use check_types::steps::CheckFault;
use ob_syntax::names::Identdef;
use ob_syntax::types::Formals;
use std::mem::replace;

/// What was put aside where a procedure's scope was entered: whether there was one round it, the pointer types whose base
/// comes later, and what belongs to the scope round it.
#[derive(Drop)]
pub struct PutAside {
    pub is_local: bool,
    pub forward: Vec<Forward>,
    pub outer: Outer,
}

/// A procedure whose scope is open, and whose heading is known.
#[derive(Drop)]
pub struct OpenProcedure {
    pub number: u32,
    pub heading: Heading,
    pub forward: Vec<Forward>,
    pub outer: Outer,
}

// A procedure's name stands, and it takes the next number.
fn next_procedure(state: &mut Building, round: &Surroundings, name: u32) -> Result<u32, CheckFault>
    requires { IsSettled round.now state.old.declaring }
    ensures settled { OnOk result (IsSettled round.now state.new.declaring) }
    ensures types { OnOk result (state.new.declaring.types ≡ state.old.declaring.types) }
    ensures there { IfOk result (λ f. f < length state.new.procedures.items) }
    ensures more { OnOk result (length state.old.procedures.items ≤ length state.new.procedures.items) }
    ensures judged { BuildsAs IsNumber round.now state.old state.new (judged_next round.now.source.now name) result }
{
    state.declaring.stand(round, name)?;
    let number = state.new_procedure(round)?;
    Ok(number)
}

// Its scope is open from here on.
fn enter_procedure(
    state: &mut Building,
    round: &Surroundings,
    number: u32,
) -> Result<PutAside, CheckFault>
    requires { IsSettled round.now state.old.declaring }
    ensures settled { IfOk result (λ a. IsSettled (deeper round.now a.outer.depth) state.new.declaring) }
    ensures types { OnOk result (state.new.declaring.types ≡ state.old.declaring.types) }
    ensures procedures { state.new.procedures ≡ state.old.procedures }
    ensures is_local { IfOk result (λ a. a.is_local ≡ is_some state.old.declaring.procedure) }
    ensures deeper { IfOk result (λ a. round.now.depth < a.outer.depth) }
    ensures variables { IfOk result (λ a. AreNumbered state.new.declaring.types.table.entries.items a.outer.variables.items) }
    ensures entered { IfOk result (λ a. (m : Making) → Represents round.now state.old m → IsEntered round.now state.new number a m) }
    ensures memory { IfErr result (λ e. e ≡ CheckFault.Memory) }
{
    let is_local = state.declaring.procedure.is_some();
    let forward = replace(&mut state.declaring.forward, Vec::new(round.alloc));
    match enter(&mut state.declaring, round, number) {
        Ok(outer) => Ok(PutAside {
            is_local,
            forward,
            outer,
        }),
        Err(_) => Err(CheckFault::Memory),
    }
}

// What it takes and gives, and its name.
fn procedure_heading(
    state: &mut Building,
    round: &Surroundings,
    number: u32,
    is_local: bool,
    name: &Identdef,
    formals: &Option<Formals>,
) -> Result<Heading, CheckFault>
    requires stands { Stands round.now state.old.declaring }
    requires within { 0 < round.now.depth }
    requires open { is_none state.old.declaring.procedure ≡ false }
    ensures settled { OnOk result (IsSettled round.now state.new.declaring) }
    ensures later { OnOk result (IsLater state.old.declaring.types.table state.new.declaring.types.table) }
    ensures procedures { state.new.procedures ≡ state.old.procedures }
    ensures judged { BuildsAs (IsHeading state.new.declaring) round.now state.old state.new
        (judged_heading round.now.source.now number name.now (plain_option plain_formals formals.now) is_local) result }
    ensures legal { (c : SoFar) (m : Making) → Represents round.now state.old m → Upright c m
        → OnOk result (HasLegalTypes state.old.declaring.types.table → HasLegalTypes state.new.declaring.types.table) }
{
    let all = heading(&mut state.declaring, round, number, name, formals, is_local)?;
    count_signatures(&state.declaring.types)?;
    Ok(all)
}

/// A procedure's scope is opened, and its heading judged in it.
pub fn open_procedure(
    state: &mut Building,
    round: &Surroundings,
    name: &Identdef,
    formals: &Option<Formals>,
) -> Result<OpenProcedure, CheckFault>
    requires { IsUnderWay round.now state.old }
    ensures settled { IfOk result (λ o. IsSettled (deeper round.now o.outer.depth) state.new.declaring) }
    ensures under_way { IfOk result (λ o. IsUnderWay (deeper round.now o.outer.depth) state.new) }
    ensures closable { IfOk result (λ o. CanBeClosed round.now state.new o) }
    ensures later { OnOk result (IsLater state.old.declaring.types.table state.new.declaring.types.table) }
    ensures more { OnOk result (length state.old.procedures.items ≤ length state.new.procedures.items) }
    ensures judged { (m : Making) → Represents round.now state.old m
        → Answers (IsOpened round.now state.new) (opening round.now.source.now name.now (plain_option plain_formals formals.now) m) result }
    ensures legal { (c : SoFar) (m : Making) → Represents round.now state.old m → Upright c m
        → OnOk result (HasLegalTypes state.old.declaring.types.table → HasLegalTypes state.new.declaring.types.table) }
{
    let number = next_procedure(state, round, name.name)?;
    let aside = enter_procedure(state, round, number)?;
    let scope = inside(round, aside.outer.depth);
    let heading = procedure_heading(state, &scope, number, aside.is_local, name, formals)?;
    let PutAside {
        is_local: _,
        forward,
        outer,
    } = aside;
    Ok(OpenProcedure {
        number,
        heading,
        forward,
        outer,
    })
}

/// Where declarations stand in a procedure's scope, with so many scopes round it.
pub fn scope_of<'a>(
    _state: &Building,
    round: &Surroundings<'a>,
    _lines: &[u32],
    depth: usize,
) -> Surroundings<'a>
    requires under_way { IsUnderWay (deeper round.now depth) _state.now }
    requires lines { IsLineTable round.now.source.now.bytes _lines.now }
    ensures deeper { result ≡ deeper round.now depth }
    ensures under_way { IsUnderWay result _state.now }
    ensures lines { IsLineTable result.source.now.bytes _lines.now }
{
    inside(round, depth)
}
