//! The call.

ghost use Rattle.std.specs.Prelude.{◌≡◌, ℕ, List, ◌<◌, Bool, length, map, All, IfOk};
ghost use Rattle.lir_core.specs.Flows.{IsValidFlow};
ghost use Rattle.alloc_audit.specs.declared.verdict.Verdict.TheVariants.{Sound};
ghost use Rattle.alloc_audit.specs.Results.{IsLive, AreLive, AreWalked};
ghost use Rattle.alloc_audit.specs.Verdicts.{verdict_of};
ghost use Rattle.alloc_audit.specs.Parts.{TellsAll, IsFailure, IsKnown};

use crate::results::{Audited, audit_traces, unsound};
use crate::room::slots_of;
use crate::verdict::Verdict;
use global_live::live;
use lir_core::{Flow, Trace, TraceOut};
use outside::Memory;
use std::alloc::Global;

// The first failure in the results of a flow's traces.
fn audit_flow(
    alloc: Global,
    flow: &Flow,
    traces: &[Trace],
    regs: u8,
    first: usize,
    outs: &[TraceOut],
) -> Result<Option<Verdict>, Memory>
    requires { 0 < regs }
    ensures told { IfOk result (λ o. (live : ℕ → ℕ → Bool) → IsLive flow.now live → TellsAll regs flow.now live first traces.now outs.now o) }
    ensures failure { IfOk result IsFailure }
    ensures known { IfOk result (λ o. IsKnown flow.now) }
{
    let rows = live(alloc, flow)?;
    let audited = Audited {
        flow,
        live: &rows,
        registers: regs as usize,
        slots: slots_of(flow.nodes.as_slice()),
    };
    let told = audit_traces(alloc, &audited, traces, first, outs)?;
    Ok(told)
}

/// The verdict over the results of all traces of all flows, whoever made them: `Sound`, or the first failure by trace, node
/// and line. `cuts` has for each flow its traces, which are numbered together; their results stand in the order of these
/// numbers. Takes time in proportion to the flows and to the results, each times a logarithm; counts over 2^32 - 1 answer
/// `Memory`, as does a trace with a node that its flow doesn't have.
pub fn audit(
    alloc: Global,
    flows: &[Flow],
    cuts: &[Vec<Trace>],
    regs: u8,
    outs: &[TraceOut],
) -> Result<Verdict, Memory>
    requires regs { 0 < regs }
    requires cuts { length cuts.now ≡ length flows.now }
    ensures verdict { IfOk result (λ v. (lives : List (ℕ → ℕ → Bool)) → AreLive flows.now lives
        → v ≡ verdict_of regs flows.now lives (map (λ c. c.items) cuts.now) outs.now) }
    // So the walk accepts all results then, and they are sound.
    ensures sound { IfOk result (λ v. All IsValidFlow flows.now → v ≡ Sound
        → AreWalked regs 0 flows.now (map (λ c. c.items) cuts.now) outs.now) }
{
    let mut number: usize = 0;
    for (at, flow) in flows.iter().enumerate() {
        let traces = cuts[at].as_slice();
        if let Some(verdict) = audit_flow(alloc, flow, traces, regs, number, outs)? {
            return Ok(verdict);
        }
        number = number.checked_add(traces.len()).ok_or(Memory)?;
    }
    if number < outs.len() {
        let behind = unsound(number, 0, 0)?;
        return Ok(behind);
    }
    Ok(Verdict::Sound)
}
