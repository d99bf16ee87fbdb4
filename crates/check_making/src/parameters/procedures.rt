//! Procedure types (Oberon-07 report, section 6.5).

ghost use Rattle.std.specs.Prelude.{◌≡◌, ℕ, true, length, OnOk, IfOk, IfErr};
ghost use Rattle.ob_syntax.specs.Plain.{plain_option, plain_formals};
ghost use Rattle.ob_judge.specs.Making.{Making};
ghost use Rattle.ob_judge.specs.Shapes.{Shape, Procedure};
ghost use Rattle.ob_judge.specs.Parameters.{Listed as JudgedListed};
ghost use Rattle.judged_tree.specs.Tables.{are_before};
ghost use Rattle.judged_well.specs.Standing.{is_result};
ghost use Rattle.judged_programs.specs.Tidy.{AreListed, Tidy};
ghost use Rattle.table_builder.specs.Entries.{IsNumbered};
ghost use Rattle.table_builder.specs.Growing.{Grows};
ghost use Rattle.legal_tables.specs.Promised.{HasLegalTypes};
ghost use Rattle.check_making.specs.Making.{Makes, IsSettled, IsTypeOf};
ghost use Rattle.check_making.specs.Parts.{JudgesAs};
ghost use Rattle.check_making.specs.parameters.Headings.{IsHeading, procedure_type_part};
ghost use Rattle.check_making.specs.parameters.Stands.{Stands};

use crate::parameters::aside::{names_aside, names_back};
use crate::parameters::sections::{Heading, formal_part};
use crate::{Declaring, Surroundings};
use check_types::TypeRef;
use check_types::steps::CheckFault;
use ob_syntax::types::ProcedureType;

/// The procedure type that takes and gives this.
pub fn procedure_of(
    state: &mut Declaring,
    round: &Surroundings,
    heading: Heading,
) -> Result<TypeRef, CheckFault>
    requires settled { IsSettled round.now state.old }
    requires formals { are_before (length state.old.types.table.entries.items) heading.listed.formals }
    requires outcome { IsNumbered state.old.types.table.entries.items heading.outcome }
    ensures settled { OnOk result (IsSettled round.now state.new) }
    ensures makes { OnOk result ((m : Making) → Makes round.now state.old m → Makes round.now state.new m) }
    ensures grows { OnOk result (Grows state.old.types.table state.new.types.table) }
    ensures shape { IfOk result (λ k. (x : JudgedListed × Shape) → IsHeading state.old heading x → IsTypeOf state.new k (Procedure x.0.formals x.1)) }
    ensures memory { IfErr result (λ e. e ≡ CheckFault.Memory) }
    ensures legal { OnOk result ((x : JudgedListed × Shape) → IsHeading state.old heading x → AreListed x.0 → is_result x.1 ≡ true
        → HasLegalTypes state.old.types.table → HasLegalTypes state.new.types.table) }
{
    let outcome = state.types.number(heading.outcome);
    match state.types.procedure(heading.listed.formals, outcome) {
        Ok(of) => Ok(of),
        Err(_) => Err(CheckFault::Memory),
    }
}

/// A procedure type; the names of its parameters are known nowhere.
pub fn procedure_type(
    state: &mut Declaring,
    round: &Surroundings,
    tree: &ProcedureType,
) -> Result<TypeRef, CheckFault>
    requires { Stands round.now state.old }
    ensures stands { OnOk result (Stands round.now state.new) }
    ensures grows { OnOk result (Grows state.old.types.table state.new.types.table) }
    ensures judged { JudgesAs (IsTypeOf state.new) round.now state.old state.new
        (procedure_type_part round.now.source.now (plain_option plain_formals tree.now.formals)) result }
    ensures legal { (from : ℕ) (m : Making) → Makes round.now state.old m → Tidy from m
        → OnOk result (HasLegalTypes state.old.types.table → HasLegalTypes state.new.types.table) }
{
    let names = names_aside(state, round);
    let heading = formal_part(state, round, false, &tree.formals)?;
    names_back(state, round, names);
    procedure_of(state, round, heading)
}
