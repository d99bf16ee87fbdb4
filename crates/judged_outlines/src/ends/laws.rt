//! Modules end well, one after the other.

ghost use Rattle.std.specs.Prelude.{◌≡◌};
ghost use Rattle.ob_syntax.specs.Syntax.{Module as ModuleTree};
ghost use Rattle.ob_judge.specs.Declarations.{decls_part, each};
ghost use Rattle.ob_judge.specs.Judged.{Keeps};
ghost use Rattle.ob_judge.specs.Making.{Making};
ghost use Rattle.ob_judge.specs.Modules.{SoFar, first_making, import_list, import_part, no_modules, with_module};
ghost use Rattle.ob_judge.specs.Scopes.{Source};
ghost use Rattle.judged_well.specs.Standing.{IsRead};
ghost use Rattle.judged_outlines.specs.ends.Ends.{EndsWell, OffersInRange};

/// Before the first module nothing is declared.
pub fn no_modules_end_well()
    ensures { EndsWell no_modules }
{}

/// Each module ends well where those before it did.
pub fn modules_end_well()
    ensures { (p : Source) (m : ModuleTree) (c d : SoFar) → IsRead p → with_module p m c ≡ Keeps d → EndsWell c → EndsWell d }
{}

/// And the constants that it offers have values of their types.
pub fn offered_constants_are_in_range()
    ensures { (p : Source) (m : ModuleTree) (c : SoFar) (s t : Making) → IsRead p → EndsWell c
        → each (import_part p) (import_list m.imports) (first_making c) ≡ Keeps (tt, s)
        → decls_part p m.decls s ≡ Keeps (tt, t) → OffersInRange t.objects }
{}
