//! The verdict is exact.

ghost use Rattle.std.specs.Prelude.{◌≡◌, ℕ, List, Bool, None};
ghost use Rattle.lir_core.specs.declared.flow.Flow.{Flow};
ghost use Rattle.lir_core.specs.declared.flow.Trace.{Trace};
ghost use Rattle.lir_core.specs.declared.places.Places.{Places};
ghost use Rattle.lir_core.specs.declared.places.Line.{Line};
ghost use Rattle.lir_core.specs.declared.places.TraceOut.{TraceOut};
ghost use Rattle.lir_core.specs.Flows.{code_nodes};
ghost use Rattle.lir_core.specs.Sound.{room_of};
ghost use Rattle.walked_results.specs.Walked.{IsWalkedNode};
ghost use Rattle.alloc_audit.specs.declared.verdict.Verdict.TheVariants.{Sound};
ghost use Rattle.alloc_audit.specs.Nodes.{node_failure};
ghost use Rattle.alloc_audit.specs.Verdicts.{verdict_of};
ghost use Rattle.alloc_audit.specs.Results.{IsLive, AreLive, AreWalked};

/// A node's part of a result fails nowhere exactly where the walk by names accepts it, and the verdict over all results is
/// `Sound` exactly where the walk accepts all of them. So they are sound then, by `walked_results`.
pub fn verdict_is_exact()
    ensures node_passes { (k : ℕ) (f : Flow) (live : ℕ → ℕ → Bool) (n : ℕ) (start : Places) (lines : List Line) (named : List ℕ) (end : Places)
        → IsLive f live → IsWalkedNode (room_of k f) (code_nodes f.nodes) n start lines named end
        → node_failure (room_of k f) (code_nodes f.nodes) live n start lines named end ≡ None }
    ensures node_walked { (k : ℕ) (f : Flow) (live : ℕ → ℕ → Bool) (n : ℕ) (start : Places) (lines : List Line) (named : List ℕ) (end : Places)
        → IsLive f live → node_failure (room_of k f) (code_nodes f.nodes) live n start lines named end ≡ None
        → IsWalkedNode (room_of k f) (code_nodes f.nodes) n start lines named end }
    ensures all_pass { (k : ℕ) (fs : List Flow) (lives : List (ℕ → ℕ → Bool)) (cuts : List (List Trace)) (outs : List TraceOut)
        → AreLive fs lives → AreWalked k 0 fs cuts outs → verdict_of k fs lives cuts outs ≡ Sound }
    ensures all_walked { (k : ℕ) (fs : List Flow) (lives : List (ℕ → ℕ → Bool)) (cuts : List (List Trace)) (outs : List TraceOut)
        → AreLive fs lives → verdict_of k fs lives cuts outs ≡ Sound → AreWalked k 0 fs cuts outs }
{}
