//! The law that joins the homes of one list of copies to those of a placed procedure.

ghost use Rattle.std.specs.Prelude.{◌≡◌, List, []};
ghost use Rattle.placed_code.specs.Placed.{Block, Copy};
ghost use Rattle.placed_code.specs.Results.{with_copies, homes_of};
ghost use Rattle.link_layout.specs.Spots.{all_copies};

/// The homes of a procedure are those of all its copies in one list.
pub fn homes_are_those_of_copies()
    ensures { (first : List Copy) (blocks : List Block) → with_copies (all_copies first blocks) [] ≡ homes_of first blocks }
{}
