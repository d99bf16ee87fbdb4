//! What alike flows have in common.

ghost use Rattle.std.specs.Prelude.{◌≡◌, ℕ, List};
ghost use Rattle.lir_core.specs.declared.flow.Flow.{Flow};
ghost use Rattle.lir_core.specs.declared.flow.Trace.{Trace};
ghost use Rattle.global_live.specs.Reading.{HasLive};
ghost use Rattle.trace_build.specs.declared.builder.Builder.{Builder};
ghost use Rattle.trace_build.specs.Traces.{traces_of};
ghost use Rattle.alloc_choice.specs.declared.choice.Policy.{Policy};
ghost use Rattle.alloc_choice.specs.Results.{case_with, results_to};
ghost use Rattle.moved_data.specs.Alike.{AreAlike};

/// A builder cuts alike flows into the same traces.
pub fn alike_flows_have_one_cut()
    ensures { (builder : Builder) (f g : Flow) → AreAlike f g → traces_of builder f.nodes ≡ traces_of builder g.nodes }
{}

/// The same values are live into their nodes.
pub fn alike_flows_have_one_live()
    ensures { (f g : Flow) (rows : List (List ℕ)) → AreAlike f g → HasLive f rows → HasLive g rows }
{}

/// A policy gives the same results to the first so many of their traces, whatever number the first trace has.
pub fn alike_flows_have_one_result()
    ensures { (p : Policy) (f g : Flow) (rows : List (List ℕ)) (regs first : ℕ) (traces : List Trace) (n : ℕ) → AreAlike f g
        → results_to p (case_with f rows regs) first traces n ≡ results_to p (case_with g rows regs) first traces n }
{}
