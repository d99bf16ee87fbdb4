//! Bodies that waited, judged and filled in.

ghost use Rattle.std.specs.Prelude.{◌≡◌, ◌<◌, ◌≤◌, List, ℕ, Option, length, slice_set, IfOk, OnOk};
ghost use Rattle.ob_judge.specs.Making.{Making};
ghost use Rattle.ob_judge.specs.Image.{Procedure as JudgedProcedure};
ghost use Rattle.ob_judge.specs.Modules.{SoFar};
ghost use Rattle.ob_judge.specs.Scopes.{Entry};
ghost use Rattle.ob_judge.specs.Standards.{predeclared};
ghost use Rattle.judged_modules.specs.steps.Procedures.{plain_procedure};
ghost use Rattle.later_bodies.specs.Waiting.{Waiting, with_procedures};
ghost use Rattle.bodies_in_scope.specs.Standing.{AllStillStand};
ghost use Rattle.check_making.specs.Making.{IsSettled};
ghost use Rattle.check_making.specs.scopes.Building.{Represents};
ghost use Rattle.check_procedures.specs.lines.Lines.{IsLineTable};
ghost use Rattle.check_procedures.specs.Completing.{IsBody, IsCompleted};
ghost use Rattle.check_bodies.specs.Settled.{AllFit, AllWait, AreFilledIn, AreJudged};
ghost use Rattle.check_bodies.specs.Waits.{Fits, Waits};

use crate::body::Body;
use crate::work::Bodies;
use check_making::scopes::Building;
use check_making::{Declaring, Surroundings};
use check_procedures::lines::line_at;
use check_procedures::numbers::Numbered;
use check_procedures::procedure_with;
use outside::{Memory, OpenGate};
use std::sync::Wait;
use std::thread::Threads;
use trace_pool::final_results;

/// What each of some bodies comes to, judged by as many threads as there are jobs, or bodies where these are fewer. There is no
/// memory also where a rule is broken in one. It may wait.
pub fn judged_bodies<'a, R: Threads + Wait + Sync>(
    rt: &R,
    state: &'a Declaring,
    round: &'a Surroundings<'a>,
    bodies: &'a [Body<'a>],
    jobs: u32,
) -> Result<Vec<Numbered>, Memory>
    requires jobs { (0 < jobs) × (jobs ≤ 64) }
    requires settled { IsSettled round.now state.now }
    requires few { length bodies.now ≤ 262144 }
    ensures { IfOk result (λ ns. AreJudged round.now state.now bodies.now ns.items) }
{
    let work = Bodies {
        round,
        state,
        bodies,
    };
    final_results(rt, round.alloc, &work, &OpenGate, jobs)
}

// The procedure of a body that was judged.
fn fill_in(
    state: &mut Building,
    round: &Surroundings,
    lines: &[u32],
    body: Body,
    numbered: Numbered,
)
    requires settled { IsSettled round.now state.old.declaring }
    requires lines { IsLineTable round.now.source.now.bytes lines.now }
    requires fits { Fits state.old body }
    ensures declaring { state.new.declaring ≡ state.old.declaring }
    ensures length { length state.new.procedures.items ≡ length state.old.procedures.items }
    ensures filled { (w : Waiting) (m : Making) (j : JudgedProcedure) → Waits state.old.declaring body.entry w
        → IsCompleted round.now state.old.declaring.types.table (plain_procedure body.entry.tree.now) w.heading w.inner j
        → IsBody round.now.source.now (plain_procedure body.entry.tree.now) w.heading w.inner state.old.declaring.types.table numbered j
        → Represents round.now state.old m → Represents round.now state.new (with_procedures (slice_set m.procedures w.number j) m) }
{
    let line = line_at(round.source, lines, body.tree.name.name);
    let Body {
        tree: _,
        number,
        heading,
        locals,
        names: _,
        procedures: _,
    } = body;
    let procedure = procedure_with(&state.declaring, round, line, heading, locals, numbered);
    state.set_procedure(round, number, procedure);
}

/// The procedures of bodies that were judged are filled in. There is no memory where there are fewer than bodies.
pub fn fill_all(
    state: &mut Building,
    round: &Surroundings,
    lines: &[u32],
    bodies: Vec<Body>,
    judged: Vec<Numbered>,
) -> Result<(), Memory>
    requires settled { IsSettled round.now state.old.declaring }
    requires lines { IsLineTable round.now.source.now.bytes lines.now }
    requires fit { AllFit state.old bodies.items }
    ensures declaring { state.new.declaring ≡ state.old.declaring }
    ensures length { length state.new.procedures.items ≡ length state.old.procedures.items }
    ensures filled { OnOk result ((c : SoFar) (names : List ℕ → Option Entry) (m : Making) (ws : List Waiting) → AreJudged round.now state.old.declaring bodies.entry.items judged.items
        → Represents round.now state.old m → AllWait state.old.declaring bodies.entry.items ws → AllStillStand c predeclared names ws m
        → AreFilledIn round.now state.new bodies.entry.items ws m) }
{
    let mut rest = judged.into_iter();
    for body in bodies {
        let Some(numbered) = rest.next() else {
            return Err(Memory);
        };
        fill_in(state, round, lines, body, numbered);
    }
    Ok(())
}
