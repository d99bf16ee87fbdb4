//! Procedures put off (Oberon-07 report, section 10).

ghost use Rattle.std.specs.Prelude.{◌≡◌, ◌≤◌, length, OnOk, IfOk};
ghost use Rattle.ob_judge.specs.Making.{Making};
ghost use Rattle.ob_judge.specs.Modules.{SoFar};
ghost use Rattle.judged_outlines.specs.Upright.{Upright};
ghost use Rattle.legal_tables.specs.Promised.{HasLegalTypes};
ghost use Rattle.check_procedures.specs.lines.Lines.{IsLineTable};
ghost use Rattle.check_making.specs.Making.{IsSettled};
ghost use Rattle.check_making.specs.scopes.Building.{IsLater, Represents};
ghost use Rattle.check_making.specs.scopes.Scopes.{deeper};
ghost use Rattle.check_procedures.specs.Open.{CanBeClosed, IsOpened};
ghost use Rattle.check_procedures.specs.Parts.{JudgedOpen};
ghost use Rattle.check_procedures.specs.UnderWay.{IsUnderWay};
ghost use Rattle.check_bodies.specs.PutOff.{IsPutOff, IsSetAside};
ghost use Rattle.check_bodies.specs.Waits.{Fits};

use crate::body::Body;
use crate::names::are_alike;
use check_making::scopes::{Building, inside, leave, variable_numbers};
use check_making::{Surroundings, next_number};
use check_procedures::{OpenProcedure, declarations, open_procedure, scope_of};
use check_types::steps::CheckFault;
use ob_syntax::declarations::Procedure as ProcedureTree;

// The scope of a procedure is closed, whose body waits. There is no memory also for one that declares a constant that is a
// string.
fn set_aside<'a>(
    state: &mut Building,
    round: &Surroundings,
    tree: &'a ProcedureTree,
    opened: OpenProcedure,
) -> Result<Body<'a>, CheckFault>
    requires settled { IsSettled (deeper round.now opened.outer.depth) state.old.declaring }
    requires closable { CanBeClosed round.now state.old opened }
    ensures settled { OnOk result (IsSettled round.now state.new.declaring) }
    ensures types { OnOk result (state.new.declaring.types ≡ state.old.declaring.types) }
    ensures more { OnOk result (length state.old.procedures.items ≤ length state.new.procedures.items) }
    ensures tree { IfOk result (λ b. b.tree ≡ tree.entry) }
    ensures fits { IfOk result (λ b. Fits state.new b) }
    ensures waits { IfOk result (λ b. (j : JudgedOpen) (m : Making) → IsOpened round.now state.old opened (record j { inner = m })
        → IsSetAside round.now state.new b j m) }
{
    let scope = inside(round, opened.outer.depth);
    let OpenProcedure {
        number,
        heading,
        forward,
        outer,
    } = opened;
    let locals = variable_numbers(&state.declaring, &scope)?;
    let procedures = next_number(&state.procedures)?;
    let Some(names) = leave(&mut state.declaring, round, outer, forward) else {
        return Err(CheckFault::Memory);
    };
    if !are_alike(&names) {
        return Err(CheckFault::Memory);
    }
    Ok(Body {
        tree,
        number,
        heading,
        locals,
        names,
        procedures,
    })
}

/// A procedure is judged up to its body, and its scope closed. `lines` are the places where the lines of the text begin. A
/// fault isn't told as the judgement has it: bodies that wait may have others before it. There is no memory also for a
/// procedure that declares a constant that is a string.
pub fn put_off<'a>(
    state: &mut Building,
    round: &Surroundings,
    lines: &[u32],
    tree: &'a ProcedureTree,
) -> Result<Body<'a>, CheckFault>
    requires under_way { IsUnderWay round.now state.old }
    requires lines { IsLineTable round.now.source.now.bytes lines.now }
    ensures settled { OnOk result (IsSettled round.now state.new.declaring) }
    ensures later { OnOk result (IsLater state.old.declaring.types.table state.new.declaring.types.table) }
    ensures more { OnOk result (length state.old.procedures.items ≤ length state.new.procedures.items) }
    ensures tree { IfOk result (λ b. b.tree ≡ tree.entry) }
    ensures fits { IfOk result (λ b. Fits state.new b) }
    ensures waits { IfOk result (λ b. (c : SoFar) (m : Making) → Represents round.now state.old m → Upright c m → IsPutOff round.now state.new b m) }
    ensures legal { (c : SoFar) (m : Making) → Represents round.now state.old m → Upright c m
        → OnOk result (HasLegalTypes state.old.declaring.types.table → HasLegalTypes state.new.declaring.types.table) }
{
    let opened = open_procedure(state, round, &tree.name, &tree.formals)?;
    let scope = scope_of(state, round, lines, opened.outer.depth);
    declarations(state, &scope, lines, &tree.decls)?;
    let body = set_aside(state, round, tree, opened)?;
    Ok(body)
}
