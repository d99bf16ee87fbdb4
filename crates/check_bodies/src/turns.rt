//! Procedures of a module, whose bodies are judged by several workers (Oberon-07 report, section 10).

ghost use Rattle.std.specs.Prelude.{◌≡◌, ◌+◌, ◌<◌, ◌≤◌, ◌∷◌, ◌++◌, [], List, ℕ, Option, length, OnOk, IfOk};
ghost use Rattle.ob_judge.specs.Making.{Making};
ghost use Rattle.ob_judge.specs.Declarations.{procedures_part};
ghost use Rattle.ob_judge.specs.Modules.{SoFar};
ghost use Rattle.ob_judge.specs.Scopes.{Entry};
ghost use Rattle.ob_judge.specs.Standards.{predeclared};
ghost use Rattle.judged_modules.specs.steps.Procedures.{OneProcedure, plain_procedure, plain_each_procedure};
ghost use Rattle.judged_outlines.specs.Upright.{Upright};
ghost use Rattle.legal_tables.specs.Promised.{HasLegalTypes};
ghost use Rattle.check_making.specs.scopes.Building.{IsLater, Represents};
ghost use Rattle.check_procedures.specs.lines.Lines.{IsLineTable};
ghost use Rattle.check_bodies.specs.Settled.{AllFit};
ghost use Rattle.bodies_in_scope.specs.Standing.{Between};
ghost use Rattle.later_bodies.specs.Walked.{one_by_one};
ghost use Rattle.check_procedures.specs.UnderWay.{HasFewSignatures};
ghost use Rattle.check_bodies.specs.Walked.{ComesTo, IsBetween, Walked};

use crate::body::Body;
use crate::putting_off::put_off;
use crate::settling::{fill_all, judged_bodies};
use check_making::Surroundings;
use check_making::scopes::Building;
use check_procedures::procedure;
use check_types::steps::CheckFault;
use ob_syntax::declarations::{Procedure as ProcedureTree, ProcedureDecl};
use outside::Memory;
use std::sync::Wait;
use std::thread::Threads;

// A procedure is put off, and its body waits with these.
fn one_waits<'a>(
    state: &mut Building,
    round: &Surroundings,
    lines: &[u32],
    tree: &'a ProcedureTree,
    bodies: &mut Vec<Body<'a>>,
) -> Result<(), CheckFault>
    requires between { IsBetween round.now state.old }
    requires lines { IsLineTable round.now.source.now.bytes lines.now }
    requires fit { AllFit state.old bodies.old.items }
    ensures between { OnOk result (IsBetween round.now state.new) }
    ensures later { OnOk result (IsLater state.old.declaring.types.table state.new.declaring.types.table) }
    ensures fit { OnOk result (AllFit state.new bodies.new.items) }
    ensures many { OnOk result (length bodies.new.items ≤ length bodies.old.items + 1) }
    ensures walked { OnOk result ((c : SoFar) (first : Making) (qs : List OneProcedure) → Walked round.now c first qs state.old bodies.old.items
        → Walked round.now c first (qs ++ plain_procedure tree.now ∷ []) state.new bodies.new.items) }
    ensures legal { (c : SoFar) (m : Making) → Represents round.now state.old m → Upright c m
        → OnOk result (HasLegalTypes state.old.declaring.types.table → HasLegalTypes state.new.declaring.types.table) }
{
    let body = put_off(state, round, lines, tree)?;
    bodies.push(body)?;
    Ok(())
}

// A procedure is judged with its body, while these wait.
fn one_at_once<'a>(
    state: &mut Building,
    round: &Surroundings,
    lines: &[u32],
    tree: &ProcedureTree,
    _bodies: &[Body<'a>],
) -> Result<(), CheckFault>
    requires between { IsBetween round.now state.old }
    requires lines { IsLineTable round.now.source.now.bytes lines.now }
    requires fit { AllFit state.old _bodies.now }
    ensures between { OnOk result (IsBetween round.now state.new) }
    ensures later { OnOk result (IsLater state.old.declaring.types.table state.new.declaring.types.table) }
    ensures fit { OnOk result (AllFit state.new _bodies.now) }
    ensures walked { OnOk result ((c : SoFar) (first : Making) (qs : List OneProcedure) → Walked round.now c first qs state.old _bodies.now
        → Walked round.now c first (qs ++ plain_procedure tree.now ∷ []) state.new _bodies.now) }
    ensures legal { (c : SoFar) (m : Making) → Represents round.now state.old m → Upright c m
        → OnOk result (HasLegalTypes state.old.declaring.types.table → HasLegalTypes state.new.declaring.types.table) }
{
    procedure(state, round, lines, tree)?;
    Ok(())
}

// One procedure more: one that declares constants is judged with its body, since its names may be strings.
fn one_more<'a>(
    state: &mut Building,
    round: &Surroundings,
    lines: &[u32],
    tree: &'a ProcedureTree,
    bodies: &mut Vec<Body<'a>>,
) -> Result<(), CheckFault>
    requires between { IsBetween round.now state.old }
    requires lines { IsLineTable round.now.source.now.bytes lines.now }
    requires fit { AllFit state.old bodies.old.items }
    ensures between { OnOk result (IsBetween round.now state.new) }
    ensures later { OnOk result (IsLater state.old.declaring.types.table state.new.declaring.types.table) }
    ensures fit { OnOk result (AllFit state.new bodies.new.items) }
    ensures many { OnOk result (length bodies.new.items ≤ length bodies.old.items + 1) }
    ensures walked { OnOk result ((c : SoFar) (first : Making) (qs : List OneProcedure) → Walked round.now c first qs state.old bodies.old.items
        → Walked round.now c first (qs ++ plain_procedure tree.now ∷ []) state.new bodies.new.items) }
    ensures legal { (c : SoFar) (m : Making) → Represents round.now state.old m → Upright c m
        → OnOk result (HasLegalTypes state.old.declaring.types.table → HasLegalTypes state.new.declaring.types.table) }
{
    if tree.decls.consts.is_none() {
        one_waits(state, round, lines, tree, bodies)?;
    } else {
        one_at_once(state, round, lines, tree, bodies)?;
    }
    Ok(())
}

/// Some procedures of a module are judged up to their bodies, one after the other, and but for those that declare constants
/// their bodies wait. A fault isn't told as the judgement has it: a body that waits may have one before it.
pub fn put_off_all<'a>(
    state: &mut Building,
    round: &Surroundings,
    lines: &[u32],
    trees: &'a [ProcedureDecl],
) -> Result<Vec<Body<'a>>, CheckFault>
    requires between { IsBetween round.now state.old }
    requires lines { IsLineTable round.now.source.now.bytes lines.now }
    requires few { HasFewSignatures state.old.declaring.types.table }
    ensures between { OnOk result (IsBetween round.now state.new) }
    ensures later { OnOk result (IsLater state.old.declaring.types.table state.new.declaring.types.table) }
    ensures fit { IfOk result (λ bs. AllFit state.new bs.items) }
    ensures many { IfOk result (λ bs. length bs.items ≤ length trees.entry.now) }
    ensures walked { IfOk result (λ bs. (c : SoFar) (m : Making) (names : List ℕ → Option Entry) → Represents round.now state.old m → Between c predeclared names m
        → Walked round.now c m (one_by_one trees.entry.now) state.new bs.items) }
    ensures legal { (c : SoFar) (m : Making) (names : List ℕ → Option Entry) → Represents round.now state.old m → Between c predeclared names m
        → OnOk result (HasLegalTypes state.old.declaring.types.table → HasLegalTypes state.new.declaring.types.table) }
{
    let mut bodies = Vec::new(round.alloc);
    for next in trees {
        one_more(state, round, lines, &next.procedure, &mut bodies)?;
    }
    Ok(bodies)
}

/// Some procedures of a module are judged, their bodies by as many threads as there are jobs, or bodies where these are fewer.
/// There is no memory also where a rule is broken: which one is broken first, the judgement in the order of the text tells. It
/// may wait.
pub fn judge_turn<R: Threads + Wait + Sync>(
    rt: &R,
    state: &mut Building,
    round: &Surroundings,
    lines: &[u32],
    trees: &[ProcedureDecl],
    jobs: u32,
) -> Result<(), Memory>
    requires between { IsBetween round.now state.old }
    requires lines { IsLineTable round.now.source.now.bytes lines.now }
    requires few { HasFewSignatures state.old.declaring.types.table }
    requires jobs { (0 < jobs) × (jobs ≤ 64) }
    requires small { length trees.now ≤ 262144 }
    ensures between { OnOk result (IsBetween round.now state.new) }
    ensures later { OnOk result (IsLater state.old.declaring.types.table state.new.declaring.types.table) }
    ensures judged { OnOk result ((c : SoFar) (m : Making) (names : List ℕ → Option Entry) → Represents round.now state.old m → Between c predeclared names m
        → ComesTo round.now state.new c (procedures_part round.now.source.now (plain_each_procedure trees.now) m)) }
    ensures legal { (c : SoFar) (m : Making) (names : List ℕ → Option Entry) → Represents round.now state.old m → Between c predeclared names m
        → OnOk result (HasLegalTypes state.old.declaring.types.table → HasLegalTypes state.new.declaring.types.table) }
{
    let Ok(bodies) = put_off_all(state, round, lines, &*trees) else {
        return Err(Memory);
    };
    let judged = judged_bodies(rt, &state.declaring, &*round, &bodies, jobs)?;
    fill_all(state, round, lines, bodies, judged)?;
    Ok(())
}
