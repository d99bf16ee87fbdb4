//! Procedures whose scopes are closed (Oberon-07 report, section 10).

ghost use Rattle.std.specs.Prelude.{◌≡◌, ◌≤◌, length, OnOk};
ghost use Rattle.ob_judge.specs.Making.{Making};
ghost use Rattle.ob_judge.specs.Modules.{SoFar};
ghost use Rattle.judged_outlines.specs.Upright.{Upright};
ghost use Rattle.judged_modules.specs.steps.Procedures.{plain_procedure};
ghost use Rattle.check_procedures.specs.lines.Lines.{IsLineTable};
ghost use Rattle.check_types.specs.steps.Answers.{Answers};
ghost use Rattle.check_making.specs.Making.{IsSettled};
ghost use Rattle.check_making.specs.scopes.Built.{Built};
ghost use Rattle.check_making.specs.scopes.Scopes.{deeper};
ghost use Rattle.check_procedures.specs.Parts.{JudgedOpen, closing};
ghost use Rattle.check_procedures.specs.Open.{CanBeClosed, IsOpened};

use crate::completing::completed;
use crate::opening::OpenProcedure;
use check_making::Surroundings;
use check_making::scopes::{Building, inside, leave};
use check_types::steps::CheckFault;
use ob_syntax::declarations::Procedure as ProcedureTree;

/// A procedure is completed, and its scope closed.
pub fn close_procedure(
    state: &mut Building,
    round: &Surroundings,
    lines: &[u32],
    tree: &ProcedureTree,
    opened: OpenProcedure,
) -> Result<(), CheckFault>
    requires settled { IsSettled (deeper round.now opened.outer.depth) state.old.declaring }
    requires closable { CanBeClosed round.now state.old opened }
    requires lines { IsLineTable round.now.source.now.bytes lines.now }
    ensures settled { OnOk result (IsSettled round.now state.new.declaring) }
    ensures types { OnOk result (state.new.declaring.types ≡ state.old.declaring.types) }
    ensures more { OnOk result (length state.old.procedures.items ≤ length state.new.procedures.items) }
    ensures judged { (c : SoFar) (j : JudgedOpen) (m : Making) → IsOpened round.now state.old opened (record j { inner = m }) → Upright c m
        → Answers (Built round.now state.new) (closing round.now.source.now (plain_procedure tree.now) j m) result }
{
    let scope = inside(round, opened.outer.depth);
    let OpenProcedure {
        number,
        heading,
        forward,
        outer,
    } = opened;
    let procedure = completed(&state.declaring, &scope, lines, heading, tree)?;
    state.set_procedure(&scope, number, procedure);
    leave(&mut state.declaring, round, outer, forward);
    Ok(())
}
