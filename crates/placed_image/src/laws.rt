//! The law that the layers above cite.

ghost use Rattle.std.specs.Prelude.{ℕ, ◌≤◌, List, All};
ghost use Rattle.lir_core.specs.declared.flow.Flow.{Flow};
ghost use Rattle.lir_core.specs.declared.flow.Trace.{Trace};
ghost use Rattle.lir_core.specs.declared.places.TraceOut.{TraceOut};
ghost use Rattle.trace_build.specs.declared.builder.Builder.{Builder};
ghost use Rattle.alloc_audit.specs.Results.{AreWalked};
ghost use Rattle.link_plan.specs.Linked.{AllAllocated, AreSmall};
ghost use Rattle.placed_image.specs.Cutting.{AreCutBy};
ghost use Rattle.placed_image.specs.Shares.{cuts_of};
ghost use Rattle.placed_image.specs.Placing.{IsPlaceable};

/// Results that the walk by names accepts can be linked, whoever made them, where the flows can be placed: they are sound, and
/// numbers, registers and frames fit instructions.
pub fn placed_results_are_linked()
    ensures allocated { (k : ℕ) (builder : Builder) (flows : List Flow) (cuts : List (List Trace)) (outs : List TraceOut)
        → 4 ≤ k → k ≤ 16 → All IsPlaceable flows → AreCutBy builder flows cuts → AreWalked k 0 flows cuts outs
        → AllAllocated k (cuts_of flows cuts outs) }
    ensures small { (k : ℕ) (builder : Builder) (flows : List Flow) (cuts : List (List Trace)) (outs : List TraceOut)
        → 4 ≤ k → k ≤ 16 → All IsPlaceable flows → AreCutBy builder flows cuts → AreWalked k 0 flows cuts outs
        → AreSmall (cuts_of flows cuts outs) }
{}
