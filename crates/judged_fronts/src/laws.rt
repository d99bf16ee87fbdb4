//! What stays where more modules are judged.

ghost use Rattle.std.specs.Prelude.{◌≡◌, ◌++◌, ◌∷◌, [], ℕ, List, length};
ghost use Rattle.ob_judge.specs.Image.{Program};
ghost use Rattle.ob_judge.specs.Modules.{Parsed, Legal, checked};
ghost use Rattle.judged_fronts.specs.Fronts.{IsStartOf, IsByModules};

/// Where modules and then more are legal, the first ones are, and their program is the start of the program of all.
pub fn modules_stay()
    ensures { (ms ns : List Parsed) (whole : Program) → checked (ms ++ ns) ≡ Legal whole
        → (start : Program) × (checked ms ≡ Legal start) × IsStartOf start whole }
{}

/// The procedures of legal modules stand in the order of their modules: those of a module behind all of the modules before it.
pub fn procedures_are_by_modules()
    ensures { (ms : List Parsed) (m : Parsed) (start whole : Program) → checked ms ≡ Legal start → checked (ms ++ m ∷ []) ≡ Legal whole
        → IsByModules (length ms) (length start.procedures) whole.procedures }
{}
