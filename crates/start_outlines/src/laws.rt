//! What stays of outlines where more modules are judged.

ghost use Rattle.std.specs.Prelude.{◌≡◌, ◌++◌, List};
ghost use Rattle.ob_judge.specs.Image.{Program};
ghost use Rattle.ob_judge.specs.Modules.{Parsed, Legal, checked};
ghost use Rattle.judged_fronts.specs.Fronts.{IsStartOf};
ghost use Rattle.judged_tree.specs.Outline.{outlined_program};

/// Where modules and then more are legal, the first ones are, and the outline of their program is the start of the outline of the
/// program of all.
pub fn outlines_stay()
    ensures { (ms ns : List Parsed) (whole : Program) → checked (ms ++ ns) ≡ Legal whole
        → (start : Program) × (checked ms ≡ Legal start) × IsStartOf (outlined_program start) (outlined_program whole) }
{}
