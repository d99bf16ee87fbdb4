//! What follows for the traces below.

ghost use Rattle.std.specs.Prelude.{◌≡◌, ℕ, ◌<◌, length, get_or, true};
ghost use Rattle.lir_core.specs.declared.flow.Flow.{Flow};
ghost use Rattle.lir_core.specs.declared.flow.Trace.{Trace};
ghost use Rattle.lir_core.specs.declared.places.TraceOut.{TraceOut};
ghost use Rattle.lir_core.specs.Flows.{code_nodes, leads};
ghost use Rattle.lir_core.specs.Sound.{IsSound, EndsRise};
ghost use Rattle.linear_scan.specs.Inputs.{IsFit, hint_at};

/// The end places of each node of a sound result whose ends rise are a fit hint for every trace into whose head an edge
/// leads from the node.
pub fn ends_are_fit()
    ensures { (k : ℕ) (f : Flow) (t : Trace) (out : TraceOut) → IsSound k f t out → EndsRise out → (i head : ℕ) → i < length t.nodes
        → leads (code_nodes f.nodes) head (get_or t.nodes i 0) ≡ true → IsFit k (code_nodes f.nodes) head (hint_at t out i) }
{}
