//! The laws of edges.

ghost use Rattle.std.specs.Prelude.{ℕ, ◌<◌, List, length};
ghost use Rattle.lir_core.specs.declared.flow.Flow.{Flow};
ghost use Rattle.lir_core.specs.declared.flow.Trace.{Trace};
ghost use Rattle.lir_core.specs.declared.places.Places.{Places};
ghost use Rattle.lir_core.specs.declared.places.TraceOut.{TraceOut};
ghost use Rattle.lir_core.specs.Flows.{code_nodes};
ghost use Rattle.lir_core.specs.Spots.{TakesOver};
ghost use Rattle.lir_core.specs.Sound.{IsSoundNode, room_of};
ghost use Rattle.parallel_move.specs.Steps.{steps_source};
ghost use Rattle.parallel_move.specs.Order.{order_of};
ghost use Rattle.boundary_resolve.specs.Moves.{edge_moves, Covers};
ghost use Rattle.boundary_resolve.specs.Placing.{start_at, end_at, lines_at, registers_at};
ghost use Rattle.boundary_resolve.specs.Edges.{AreSound, EdgesHold};

/// The moves of an edge, in order, take places over: where those before it hold, those behind it do.
pub fn moves_take_over()
    ensures { (before after : Places) (argument : ℕ → ℕ) → Covers before after argument
        → TakesOver before after argument (steps_source (order_of (edge_moves before after argument))) }
{}

/// Over each edge of a flow, and from its entry, the steps that stand there take places over, whichever sound results its
/// traces have.
pub fn edges_hold()
    ensures { (k : ℕ) (f : Flow) (traces : List Trace) (outs : List TraceOut) → AreSound k f traces outs → EdgesHold f traces outs }
{}

/// Each node of a flow has a sound part of the results: the one at its seat, whose lines stand in the code.
pub fn nodes_are_sound()
    ensures { (k : ℕ) (f : Flow) (traces : List Trace) (outs : List TraceOut) → AreSound k f traces outs → (n : ℕ) → n < length f.nodes
        → IsSoundNode (room_of k f) (code_nodes f.nodes) n (start_at traces outs n) (lines_at traces outs n) (registers_at traces outs n) (end_at traces outs n) }
{}
