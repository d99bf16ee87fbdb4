//! The law that joins walked results and sound ones.

ghost use Rattle.std.specs.Prelude.{ℕ, List};
ghost use Rattle.block_runs.specs.Blocks.{CodeBlock};
ghost use Rattle.lir_core.specs.declared.flow.Flow.{Flow};
ghost use Rattle.lir_core.specs.declared.flow.Trace.{Trace};
ghost use Rattle.lir_core.specs.declared.places.Places.{Places};
ghost use Rattle.lir_core.specs.declared.places.Line.{Line};
ghost use Rattle.lir_core.specs.declared.places.TraceOut.{TraceOut};
ghost use Rattle.lir_core.specs.Lines.{Room};
ghost use Rattle.lir_core.specs.Sound.{IsSoundNode, IsSound};
ghost use Rattle.walked_results.specs.Walked.{IsWalkedNode, IsWalked};

/// What the walk accepts is sound, for every numbers of values and every contents: a node's part of a result, and a whole
/// result.
pub fn walked_results_are_sound()
    ensures node { (room : Room) (bls : List CodeBlock) (n : ℕ) (start : Places) (lines : List Line) (named : List ℕ) (end : Places)
        → IsWalkedNode room bls n start lines named end → IsSoundNode room bls n start lines named end }
    ensures result { (k : ℕ) (f : Flow) (t : Trace) (out : TraceOut) → IsWalked k f t out → IsSound k f t out }
{}
