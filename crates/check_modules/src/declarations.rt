//! The declarations of a module.

ghost use Rattle.std.specs.Prelude.{◌≡◌, ◌≤◌, length, OnOk};
ghost use Rattle.ob_syntax.specs.Plain.{plain_decls};
ghost use Rattle.ob_judge.specs.Declarations.{decls_part, procedures_part};
ghost use Rattle.ob_judge.specs.Making.{Making};
ghost use Rattle.ob_judge.specs.Modules.{SoFar};
ghost use Rattle.legal_tables.specs.Promised.{HasLegalTypes};
ghost use Rattle.judged_outlines.specs.Upright.{Upright};
ghost use Rattle.judged_modules.specs.steps.Procedures.{plain_each_procedure};
ghost use Rattle.check_procedures.specs.lines.Lines.{IsLineTable};
ghost use Rattle.check_making.specs.Making.{IsSettled};
ghost use Rattle.check_making.specs.scopes.Building.{IsLater, Represents};
ghost use Rattle.check_procedures.specs.UnderWay.{IsUnderWay, HasFewSignatures, BuildsUpright};

use check_making::Surroundings;
use check_making::scopes::Building;
use check_procedures::{before_procedures, procedure};
use check_types::steps::CheckFault;
use ob_syntax::declarations::{Decls, ProcedureDecl};

/// All declarations of a module: constants, types and variables, and then procedures, each of which is let go once it is judged.
pub fn declarations(
    state: &mut Building,
    round: &Surroundings,
    lines: &[u32],
    tree: Decls,
) -> Result<(), CheckFault>
    requires under_way { IsUnderWay round.now state.old }
    requires lines { IsLineTable round.now.source.now.bytes lines.now }
    ensures settled { OnOk result (IsSettled round.now state.new.declaring) }
    ensures later { OnOk result (IsLater state.old.declaring.types.table state.new.declaring.types.table) }
    ensures judged { BuildsUpright round.now state.old state.new (decls_part round.now.source.now (plain_decls tree)) result }
    ensures legal { (c : SoFar) (m : Making) → Represents round.now state.old m → Upright c m
        → OnOk result (HasLegalTypes state.old.declaring.types.table → HasLegalTypes state.new.declaring.types.table) }
{
    let Decls {
        consts,
        types,
        vars,
        procedures: each,
    } = tree;
    before_procedures(state, round, &consts, &types, &vars)?;
    procedures(state, round, lines, each)?;
    Ok(())
}

// The procedures of a module, one after the other.
fn procedures(
    state: &mut Building,
    round: &Surroundings,
    lines: &[u32],
    each: Vec<ProcedureDecl>,
) -> Result<(), CheckFault>
    requires under_way { IsUnderWay round.now state.old }
    requires lines { IsLineTable round.now.source.now.bytes lines.now }
    requires few { HasFewSignatures state.old.declaring.types.table }
    ensures settled { OnOk result (IsSettled round.now state.new.declaring) }
    ensures later { OnOk result (IsLater state.old.declaring.types.table state.new.declaring.types.table) }
    ensures judged { BuildsUpright round.now state.old state.new (procedures_part round.now.source.now (plain_each_procedure each.items)) result }
    ensures legal { (c : SoFar) (m : Making) → Represents round.now state.old m → Upright c m
        → OnOk result (HasLegalTypes state.old.declaring.types.table → HasLegalTypes state.new.declaring.types.table) }
{
    for next in each {
        let judged = procedure(state, round, lines, &next.procedure);
        drop(next);
        judged?;
    }
    Ok(())
}
