//! The result of a trace.

ghost use Rattle.std.specs.Prelude.{◌≡◌, ◌≤◌, length, IfOk, IfSome};
ghost use Rattle.lir_core.specs.Sound.{IsSound, EndsRise};
ghost use Rattle.walked_results.specs.Walked.{IsWalked};
ghost use Rattle.linear_scan.specs.Inputs.{case_of, hint_of, lent, IsInput};
ghost use Rattle.alloc_choice.specs.Choice.{used};
ghost use Rattle.alloc_choice.specs.Results.{result_by};

use crate::choice::{Choice, Used, policy_of};
use lir_core::{Places, TraceIn, TraceOut};
use outside::Memory;
use simple_policies::plain::plain;
use simple_policies::trivial::trivial;
use std::alloc::Global;

/// The result of a trace by the policy that is used for it: exactly the defined one, and whichever it is, the walk by names
/// accepts it, and so it is sound, for a valid flow, what is live in it, a trace, and a hint that is fit or none. The
/// registers are those of `t`. Takes the time of the allocator that is used.
pub fn allocate_trace(
    alloc: Global,
    choice: &Choice,
    t: &TraceIn,
    hint: Option<&Places>,
) -> Result<TraceOut, Memory>
    requires enough { 4 ≤ t.now.regs }
    requires few { t.now.regs ≤ 16 }
    requires row { IfSome hint (λ q. length q.now.regs ≡ t.now.regs) }
    ensures result_is { IsInput (case_of t.now) t.now.trace.now.nodes (hint_of t.now.from (lent hint.entry))
        → IfOk result (λ out. out ≡ result_by (used choice.now.policy t.now.flow.now.nodes t.now.trace.now.nodes)
        (case_of t.now) t.now.number t.now.trace.now.nodes (hint_of t.now.from (lent hint.entry))) }
    ensures walked { IsInput (case_of t.now) t.now.trace.now.nodes (hint_of t.now.from (lent hint.entry))
        → IfOk result (IsWalked t.now.regs t.now.flow.now t.now.trace.now) }
    ensures sound { IsInput (case_of t.now) t.now.trace.now.nodes (hint_of t.now.from (lent hint.entry))
        → IfOk result (IsSound t.now.regs t.now.flow.now t.now.trace.now) }
    ensures rises { IsInput (case_of t.now) t.now.trace.now.nodes (hint_of t.now.from (lent hint.entry))
        → IfOk result EndsRise }
{
    match policy_of(choice, t.flow, t.trace) {
        Used::Plain => plain(alloc, t),
        Used::Trivial => trivial(alloc, t, hint),
        Used::Linear => linear_scan::allocate(alloc, t, hint),
        Used::BottomUp => bottom_up::allocate(alloc, t),
    }
}
