//! What rows tell is so.

ghost use Rattle.std.specs.Prelude.{ℕ, List, map};
ghost use Rattle.lir_core.specs.declared.flow.Lir.{Lir};
ghost use Rattle.lir_core.specs.declared.places.Places.{Places};
ghost use Rattle.lir_core.specs.declared.places.Line.{Line};
ghost use Rattle.lir_core.specs.Flows.{operation_of};
ghost use Rattle.lir_core.specs.Lines.{Room};
ghost use Rattle.lir_core.specs.Walks.{Walks, begin};
ghost use Rattle.trace_rows.specs.Told.{EachTold};

/// Of a node whose lines the walk by names accepts, each value that is told of a register stands there, before its lines and
/// behind each.
pub fn told_values_are_walked()
    ensures { (room : Room) (ops : List Lir) (last : List ℕ) (start : Places) (lines : List Line) (named : List ℕ) (end : Places)
        → Walks room (map operation_of ops) last start lines named end → EachTold ops named lines 0 (begin start named) start.regs }
{}
