//! How boxes and edges lie.

ghost use Rattle.std.specs.Prelude.{◌≡◌, ℕ, ◌<◌, List, Bool, true, false, Some, is_some, length};
ghost use Rattle.block_runs.specs.Live.{has};
ghost use Rattle.lir_core.specs.declared.flow.Node.{Node};
ghost use Rattle.lir_core.specs.Flows.{node_at};
ghost use Rattle.flow_drawing.specs.declared.layout.Corner.{Corner};
ghost use Rattle.flow_drawing.specs.Order.{entries};
ghost use Rattle.flow_drawing.specs.Paths.{leads_back, curve_of};
ghost use Rattle.flow_drawing.specs.Boxes.{box_of, AreApart, IsAbove, IsWithin, IsOnUpperSide, IsOnLowerSide};

/// A block's box lies below those of its predecessors of smaller numbers, and below those of its predecessors that lead into it.
pub fn blocks_stand_below()
    ensures smaller { (nodes : List Node) (b p : ℕ) (c d : Corner) → p < b → has (node_at nodes b).preds p ≡ true
        → box_of nodes p ≡ Some c → box_of nodes b ≡ Some d → IsAbove c d }
    ensures entering { (nodes : List Node) (b p : ℕ) (c d : Corner) → has (entries nodes b (node_at nodes b).preds) p ≡ true
        → box_of nodes p ≡ Some c → box_of nodes b ≡ Some d → IsAbove c d }
{}

/// Each block has a box. All boxes lie within the drawing, and no two of them overlap.
pub fn boxes_lie_apart()
    ensures each { (nodes : List Node) (b : ℕ) → b < length nodes → is_some (box_of nodes b) ≡ true }
    ensures within { (nodes : List Node) (b : ℕ) (c : Corner) → box_of nodes b ≡ Some c → IsWithin nodes c }
    ensures apart { (nodes : List Node) (a b : ℕ) (c d : Corner) → box_of nodes a ≡ Some c → box_of nodes b ≡ Some d
        → (a ≡ b → ⊥) → AreApart c d }
{}

/// The line of an edge begins at its block's box, on the lower side, and ends at its target's, on the upper side. Unless it is led
/// back, the target's box lies below.
pub fn edges_meet_boxes()
    ensures start { (is_back : Bool) (from to : Corner) → IsOnLowerSide (curve_of is_back from to).start from }
    ensures end { (is_back : Bool) (from to : Corner) → IsOnUpperSide (curve_of is_back from to).end to }
    ensures down { (nodes : List Node) (a b : ℕ) (c d : Corner) → box_of nodes a ≡ Some c → box_of nodes b ≡ Some d
        → leads_back c d ≡ false → IsAbove c d }
{}
