//! The walk over procedures in each other (Oberon-07 report, section 10).

ghost use Rattle.std.specs.Prelude.{◌≡◌, ◌≤◌, length, OnOk};
ghost use Rattle.ob_syntax.specs.Plain.{plain_decls};
ghost use Rattle.ob_syntax.specs.declared.declarations.Decls.{out-Decls};
ghost use Rattle.ob_judge.specs.Declarations.{decls_part, procedures_part};
ghost use Rattle.ob_judge.specs.Making.{Making};
ghost use Rattle.ob_judge.specs.Modules.{SoFar};
ghost use Rattle.legal_tables.specs.Promised.{HasLegalTypes};
ghost use Rattle.judged_outlines.specs.Upright.{Upright};
ghost use Rattle.judged_modules.specs.steps.Procedures.{plain_procedure, plain_each_procedure};
ghost use Rattle.judged_modules.specs.steps.Steps.{procedure_part};
ghost use Rattle.check_procedures.specs.lines.Lines.{IsLineTable};
ghost use Rattle.check_making.specs.Making.{IsSettled};
ghost use Rattle.check_making.specs.scopes.Building.{IsLater, Represents};
ghost use Rattle.check_procedures.specs.UnderWay.{IsUnderWay, HasFewSignatures, BuildsUpright};

use crate::closing::close_procedure;
use crate::first_parts::before_procedures;
use crate::opening::{open_procedure, scope_of};
use check_making::Surroundings;
use check_making::scopes::Building;
use check_types::steps::CheckFault;
use ob_syntax::declarations::{Decls, Procedure as ProcedureTree};

/// All declarations of a scope: constants, types and variables, and then procedures, each with its own declarations and its
/// statements. `lines` are the places where the lines of the text begin.
#[cycle(walk)]
pub fn declarations(
    state: &mut Building,
    round: &Surroundings,
    lines: &[u32],
    tree: &Decls,
) -> Result<(), CheckFault>
    requires under_way { IsUnderWay round.now state.old }
    requires lines { IsLineTable round.now.source.now.bytes lines.now }
    ensures settled { OnOk result (IsSettled round.now state.new.declaring) }
    ensures later { OnOk result (IsLater state.old.declaring.types.table state.new.declaring.types.table) }
    ensures more { OnOk result (length state.old.procedures.items ≤ length state.new.procedures.items) }
    ensures judged { BuildsUpright round.now state.old state.new (decls_part round.now.source.now (plain_decls tree.now)) result }
    ensures legal { (c : SoFar) (m : Making) → Represents round.now state.old m → Upright c m
        → OnOk result (HasLegalTypes state.old.declaring.types.table → HasLegalTypes state.new.declaring.types.table) }
{
    before_procedures(state, round, &tree.consts, &tree.types, &tree.vars)?;
    procedures(state, round, lines, tree)?;
    Ok(())
}

/// The procedures among declarations, one after the other.
#[cycle(walk)]
fn procedures(
    state: &mut Building,
    round: &Surroundings,
    lines: &[u32],
    tree: &Decls,
) -> Result<(), CheckFault>
    requires under_way { IsUnderWay round.now state.old }
    requires lines { IsLineTable round.now.source.now.bytes lines.now }
    requires few { HasFewSignatures state.old.declaring.types.table }
    ensures settled { OnOk result (IsSettled round.now state.new.declaring) }
    ensures later { OnOk result (IsLater state.old.declaring.types.table state.new.declaring.types.table) }
    ensures more { OnOk result (length state.old.procedures.items ≤ length state.new.procedures.items) }
    ensures judged { BuildsUpright round.now state.old state.new
        (procedures_part round.now.source.now (plain_each_procedure (out-Decls tree.now).procedures.items)) result }
    ensures legal { (c : SoFar) (m : Making) → Represents round.now state.old m → Upright c m
        → OnOk result (HasLegalTypes state.old.declaring.types.table → HasLegalTypes state.new.declaring.types.table) }
{
    for next in &tree.procedures {
        procedure(state, round, lines, &next.procedure)?;
    }
    Ok(())
}

/// A procedure, with its own declarations, procedures among them, and its statements. `lines` are the places where the lines of the
/// text begin.
#[cycle(walk)]
pub fn procedure(
    state: &mut Building,
    round: &Surroundings,
    lines: &[u32],
    tree: &ProcedureTree,
) -> Result<(), CheckFault>
    requires under_way { IsUnderWay round.now state.old }
    requires lines { IsLineTable round.now.source.now.bytes lines.now }
    ensures settled { OnOk result (IsSettled round.now state.new.declaring) }
    ensures later { OnOk result (IsLater state.old.declaring.types.table state.new.declaring.types.table) }
    ensures more { OnOk result (length state.old.procedures.items ≤ length state.new.procedures.items) }
    ensures judged { BuildsUpright round.now state.old state.new (procedure_part round.now.source.now (plain_procedure tree.now)) result }
    ensures legal { (c : SoFar) (m : Making) → Represents round.now state.old m → Upright c m
        → OnOk result (HasLegalTypes state.old.declaring.types.table → HasLegalTypes state.new.declaring.types.table) }
{
    let opened = open_procedure(state, round, &tree.name, &tree.formals)?;
    let scope = scope_of(state, round, lines, opened.outer.depth);
    declarations(state, &scope, lines, &tree.decls)?;
    close_procedure(state, round, lines, tree, opened)?;
    Ok(())
}
