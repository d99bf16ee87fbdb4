//! The final results of one plan's traces, by one thread.

ghost use Rattle.std.specs.Prelude.{◌≡◌, ◌+◌, ◌<◌, ◌≤◌, length, IfOk, IfSome};
ghost use Rattle.linear_scan.specs.Inputs.{hint_of, lent};
ghost use Rattle.alloc_choice.specs.Choice.{IsFitChoice};
ghost use Rattle.trace_work.specs.Places.{if_row};
ghost use Rattle.trace_work.specs.Lent.{hints};
ghost use Rattle.trace_work.specs.Plans.{placed_hint, table_hint, AreFinals, AreFinalsTo, IsFinal, IsHint, IsOrdered, IsPlan};

use crate::hints::{Hint, head_of, hint_from, takes_hint};
use crate::planning::TracePlan;
use alloc_choice::{Choice, allocate_trace, policy_of};
use lir_core::{Places, TraceIn, TraceOut};
use outside::Memory;
use std::alloc::Global;

impl TracePlan<'_> {
    /// The final results of its traces, in the order of their numbers: that of each with the hint that the final result of the trace
    /// above it lends. Takes the time of the allocators that are used.
    pub fn results(&self, alloc: Global, choice: &Choice) -> Result<Vec<TraceOut>, Memory>
        requires fit { IsFitChoice choice.now }
        requires small { self.now.number + length self.now.traces ≤ 262144 }
        requires ordered { IsOrdered self.now }
        ensures count { IfOk result (λ outs. length outs.items ≡ length self.now.traces) }
        ensures finals { IsPlan choice.now.builder self.now → IfOk result (λ outs. AreFinals choice.now self.now outs.items) }
    {
        let count = self.traces.len();
        let mut outs = Vec::with_capacity(alloc, count)?;
        for number in 0..count {
            let out = result_behind(alloc, choice, self, outs.as_slice(), number)?;
            outs.push(out)?;
        }
        Ok(outs)
    }
}

// The result of a plan's trace, behind the final results of the traces before it.
fn result_behind(
    alloc: Global,
    choice: &Choice,
    plan: &TracePlan,
    outs: &[TraceOut],
    number: usize,
) -> Result<TraceOut, Memory>
    requires fit { IsFitChoice choice.now }
    requires small { plan.now.number + number < 262144 }
    requires within { number < length plan.now.traces }
    requires ordered { IsOrdered plan.now }
    requires before { length outs.now ≡ number }
    ensures { IsPlan choice.now.builder plan.now → AreFinalsTo choice.now plan.now number outs.now → IfOk result (IsFinal choice.now plan.now number) }
{
    match hint_behind(choice, plan, outs, number) {
        Some(hint) => {
            let (node, places) = (Some(hint.node), Some(hint.places));
            result(alloc, choice, plan, number, node, places)
        }
        None => result(alloc, choice, plan, number, None, None),
    }
}

// The hint of a plan's trace, which the final result of the trace above it lends.
fn hint_behind<'b>(
    choice: &Choice,
    plan: &TracePlan,
    outs: &'b [TraceOut],
    number: usize,
) -> Option<Hint<'b>>
    requires fit { IsFitChoice choice.now }
    requires within { number < length plan.now.traces }
    requires ordered { IsOrdered plan.now }
    requires before { length outs.now ≡ number }
    ensures hint { IsPlan choice.now.builder plan.now → AreFinalsTo choice.now plan.now number outs.now → IsHint choice.now plan.now number (hints result) }
    ensures row { IfSome result (λ h. length h.places.now.regs ≡ choice.now.regs) }
{
    let above = plan.parents.as_slice()[number]? as usize;
    taken_hint(choice, plan, above, &outs[above], number)
}

// The hint that the final result of a plan's trace gives to a trace below it.
fn hint_between<'b>(
    plan: &TracePlan,
    above: usize,
    done: &'b TraceOut,
    below: usize,
    regs: u8,
) -> Option<Hint<'b>>
    requires enough { 0 < regs }
    requires above { above < length plan.now.traces }
    requires below { below < length plan.now.traces }
    ensures hint { hints result ≡ if_row regs (placed_hint plan.now done.now above below) }
    ensures row { IfSome result (λ h. length h.places.now.regs ≡ regs) }
{
    let traces = plan.traces.as_slice();
    let head = head_of(traces[below].nodes.as_slice());
    hint_from(
        plan.flow,
        plan.places.as_slice(),
        &traces[above],
        done,
        head,
        regs,
    )
}

/// The hint that the final result of a plan's trace gives to a trace below it; none where the policy of that one takes none.
pub(crate) fn taken_hint<'b>(
    choice: &Choice,
    plan: &TracePlan,
    above: usize,
    done: &'b TraceOut,
    below: usize,
) -> Option<Hint<'b>>
    requires enough { 0 < choice.now.regs }
    requires above { above < length plan.now.traces }
    requires below { below < length plan.now.traces }
    ensures hint { hints result ≡ table_hint choice.now plan.now done.now above below }
    ensures row { IfSome result (λ h. length h.places.now.regs ≡ choice.now.regs) }
{
    let trace = &plan.traces.as_slice()[below];
    if takes_hint(policy_of(choice, plan.flow, trace)) {
        hint_between(plan, above, done, below, choice.regs)
    } else {
        None
    }
}

/// The result of a plan's trace, with a hint where there is one.
pub(crate) fn result(
    alloc: Global,
    choice: &Choice,
    plan: &TracePlan,
    number: usize,
    from: Option<u32>,
    hint: Option<&Places>,
) -> Result<TraceOut, Memory>
    requires fit { IsFitChoice choice.now }
    requires small { plan.now.number + number < 262144 }
    requires within { number < length plan.now.traces }
    requires row { IfSome hint (λ q. length q.now.regs ≡ choice.now.regs) }
    ensures { IsHint choice.now plan.now number (hint_of from (lent hint.entry)) → IfOk result (IsFinal choice.now plan.now number) }
{
    let t = TraceIn {
        flow: plan.flow,
        live: &plan.live,
        trace: &plan.traces.as_slice()[number],
        number: plan.number + number as u32,
        regs: choice.regs,
        from,
    };
    allocate_trace(alloc, choice, &t, hint)
}
