//! What the policies give passes, has notes, and what passes can be placed.

ghost use Rattle.std.specs.Prelude.{◌≡◌, ◌<◌, ◌≤◌, ◌^◌, ℕ, List, Bool, All, map};
ghost use Rattle.lir_core.specs.declared.flow.Flow.{Flow};
ghost use Rattle.lir_core.specs.declared.flow.Trace.{Trace};
ghost use Rattle.lir_core.specs.declared.places.TraceOut.{TraceOut};
ghost use Rattle.lir_core.specs.Flows.{IsValidFlow};
ghost use Rattle.trace_build.specs.Cuts.{lists_of, IsPartition};
ghost use Rattle.boundary_resolve.specs.Edges.{AreSound};
ghost use Rattle.linked_flows.specs.Allocations.{Cut};
ghost use Rattle.alloc_choice.specs.declared.choice.Choice.{Choice};
ghost use Rattle.flow_allocation.specs.Allocations.{AllAllocations};
ghost use Rattle.plain_form.specs.results.Bounds.{IsNotable};
ghost use Rattle.alloc_audit.specs.declared.verdict.Verdict.TheVariants.{Sound};
ghost use Rattle.alloc_audit.specs.Verdicts.{verdict_of};
ghost use Rattle.alloc_audit.specs.Results.{AreLive, OwnWalked};
ghost use Rattle.audited_allocations.specs.Joined.{joined};

/// The verdict over the results that a choice gives to flows, those of all flows one behind the other, is `Sound`.
pub fn allocations_pass()
    ensures { (choice : Choice) (cuts : List Cut) (lives : List (ℕ → ℕ → Bool))
        → AllAllocations choice 0 cuts → AreLive (map (λ c. c.flow) cuts) lives
        → verdict_of choice.regs (map (λ c. c.flow) cuts) lives (map (λ c. c.traces) cuts) (joined (map (λ c. c.outs) cuts)) ≡ Sound }
{}

/// Of such results notes can be written: their registers are at most 15, and the values in their rows of registers below
/// 2^32 - 1, where the flows have less than 2^32 values each.
pub fn allocations_have_notes()
    ensures { (choice : Choice) (first : ℕ) (cuts : List Cut)
        → AllAllocations choice first cuts → All (λ c. c.flow.values < 2 ^ 32) cuts → All IsNotable (joined (map (λ c. c.outs) cuts)) }
{}

/// Results of a flow's traces that the walk accepts can be placed, whoever made them: they are sound by `boundary_resolve`.
pub fn walked_results_can_be_placed()
    ensures { (k : ℕ) (f : Flow) (n : ℕ) (traces : List Trace) (outs : List TraceOut)
        → IsValidFlow f → 4 ≤ k → k ≤ 16 → IsPartition f (lists_of traces) → OwnWalked k f n traces outs → AreSound k f traces outs }
{}
