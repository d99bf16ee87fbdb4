//! Constants, types and variables of a scope (Oberon-07 report, sections 5 to 7).

ghost use Rattle.std.specs.Prelude.{◌≡◌, OnOk};
ghost use Rattle.ob_syntax.specs.Plain.{plain_option, plain_consts, plain_types, plain_vars};
ghost use Rattle.ob_judge.specs.Making.{Making};
ghost use Rattle.ob_judge.specs.Modules.{SoFar};
ghost use Rattle.ob_judge.specs.Declarations.{each, const_part, consts_in};
ghost use Rattle.table_builder.specs.Growing.{Grows};
ghost use Rattle.legal_tables.specs.Promised.{HasLegalTypes};
ghost use Rattle.judged_outlines.specs.Upright.{Upright};
ghost use Rattle.check_making.specs.Making.{Makes, IsSettled};
ghost use Rattle.check_making.specs.Parts.{Judges};
ghost use Rattle.check_making.specs.parameters.Stands.{Stands};
ghost use Rattle.check_making.specs.scopes.Building.{IsLater, Represents};
ghost use Rattle.check_making.specs.scopes.Built.{Builds};
ghost use Rattle.check_procedures.specs.Parts.{first_parts as judged_parts};
ghost use Rattle.check_procedures.specs.UnderWay.{IsUnderWay, HasFewSignatures};

use crate::counting::count_signatures;
use check_declared::const_decls;
use check_declared::type_parts::{type_declarations, variable_declarations};
use check_making::scopes::Building;
use check_making::{Declaring, Surroundings};
use check_types::steps::CheckFault;
use ob_syntax::declarations::{Consts, Types, Vars};

// The CONST part.
fn constant_declarations(
    state: &mut Declaring,
    round: &Surroundings,
    tree: &Option<Consts>,
) -> Result<(), CheckFault>
    requires { IsSettled round.now state.old }
    ensures settled { OnOk result (IsSettled round.now state.new) }
    ensures types { OnOk result (state.new.types ≡ state.old.types) }
    ensures judged { Judges round.now state.old state.new
        (each (const_part round.now.source.now) (consts_in (plain_option plain_consts tree.now))) result }
{
    match tree {
        None => Ok(()),
        Some(tree) => {
            const_decls(state, round, &tree.each)?;
            Ok(())
        }
    }
}

// Constants, types and variables.
fn first_parts(
    state: &mut Declaring,
    round: &Surroundings,
    consts: &Option<Consts>,
    types: &Option<Types>,
    vars: &Option<Vars>,
) -> Result<(), CheckFault>
    requires { Stands round.now state.old }
    ensures settled { OnOk result (IsSettled round.now state.new) }
    ensures grows { OnOk result (Grows state.old.types.table state.new.types.table) }
    ensures judged { Judges round.now state.old state.new
        (judged_parts round.now.source.now (plain_option plain_consts consts.now) (plain_option plain_types types.now)
        (plain_option plain_vars vars.now)) result }
    ensures legal { (c : SoFar) (m : Making) → Makes round.now state.old m → Upright c m
        → OnOk result (HasLegalTypes state.old.types.table → HasLegalTypes state.new.types.table) }
{
    constant_declarations(state, round, consts)?;
    type_declarations(state, round, types)?;
    variable_declarations(state, round, vars)?;
    Ok(())
}

/// What is declared before the procedures.
pub fn before_procedures(
    state: &mut Building,
    round: &Surroundings,
    consts: &Option<Consts>,
    types: &Option<Types>,
    vars: &Option<Vars>,
) -> Result<(), CheckFault>
    requires { IsUnderWay round.now state.old }
    ensures settled { OnOk result (IsSettled round.now state.new.declaring) }
    ensures under_way { OnOk result (IsUnderWay round.now state.new) }
    ensures later { OnOk result (IsLater state.old.declaring.types.table state.new.declaring.types.table) }
    ensures few { OnOk result (HasFewSignatures state.new.declaring.types.table) }
    ensures procedures { state.new.procedures ≡ state.old.procedures }
    ensures judged { Builds round.now state.old state.new
        (judged_parts round.now.source.now (plain_option plain_consts consts.now) (plain_option plain_types types.now)
        (plain_option plain_vars vars.now)) result }
    ensures legal { (c : SoFar) (m : Making) → Represents round.now state.old m → Upright c m
        → OnOk result (HasLegalTypes state.old.declaring.types.table → HasLegalTypes state.new.declaring.types.table) }
{
    first_parts(&mut state.declaring, round, consts, types, vars)?;
    count_signatures(&state.declaring.types)?;
    Ok(())
}
