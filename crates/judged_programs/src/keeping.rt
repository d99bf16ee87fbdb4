//! What the judgement keeps while it goes through declarations and modules, whatever the whole program is.

ghost use Rattle.std.specs.Prelude.{◌≡◌, ℕ, Bool, List, Option, length, true};
ghost use Rattle.ob_syntax.specs.Syntax.{Decls, Formals, TypeDecl, TypeTree, VarDecl};
ghost use Rattle.ob_syntax.specs.Syntax.{Module as ModuleTree};
ghost use Rattle.ob_judge.specs.Declarations.{decls_part, types_part, var_part};
ghost use Rattle.ob_judge.specs.Judged.{Keeps};
ghost use Rattle.ob_judge.specs.Making.{Making};
ghost use Rattle.ob_judge.specs.Modules.{SoFar, first_making, no_modules, with_module};
ghost use Rattle.ob_judge.specs.Parameters.{Listed, formal_part};
ghost use Rattle.ob_judge.specs.Scopes.{Source};
ghost use Rattle.ob_judge.specs.Shapes.{Shape};
ghost use Rattle.ob_judge.specs.Types.{type_part};
ghost use Rattle.judged_well.specs.Standing.{is_result};
ghost use Rattle.judged_programs.specs.Complete.{IsKnown};
ghost use Rattle.judged_programs.specs.Tidy.{AreListed, IsInProcedure, Tidy};
ghost use Rattle.judged_programs.specs.TidyModules.{TidySoFar};

/// Before the first module all is tidy.
pub fn no_modules_are_tidy()
    ensures { TidySoFar no_modules }
{}

/// Each module begins in a tidy scope.
pub fn first_scopes_are_tidy()
    ensures { (c : SoFar) → TidySoFar c → Tidy (length c.procedures) (first_making c) }
{}

/// A type that is judged leaves it so, and is one of which all cells are known.
pub fn types_stay_tidy()
    ensures { (from : ℕ) (p : Source) (x : TypeTree) (s t : Making) (a : Shape) → type_part p x s ≡ Keeps (a, t)
        → Tidy from s → Tidy from t × IsKnown t.world.known.records a }
{}

/// So do parameters and results, which are of types that they may have, and few.
pub fn parameters_stay_tidy()
    ensures { (from : ℕ) (p : Source) (known_here : Bool) (x : Option Formals) (s t : Making) (l : Listed) (a : Shape)
        → formal_part p known_here x s ≡ Keeps ((l, a), t) → IsInProcedure known_here s
        → Tidy from s → Tidy from t × AreListed l × (is_result a ≡ true) }
{}

/// So does a TYPE part, with the pointer types whose base is declared later in it.
pub fn type_parts_stay_tidy()
    ensures { (from : ℕ) (p : Source) (ds : List TypeDecl) (s t : Making) → types_part p ds s ≡ Keeps (tt, t) → Tidy from s → Tidy from t }
{}

/// So do variables.
pub fn variables_stay_tidy()
    ensures { (from : ℕ) (p : Source) (d : VarDecl) (s t : Making) → var_part p d s ≡ Keeps (tt, t) → Tidy from s → Tidy from t }
{}

/// So do all declarations of a scope, with their procedures.
pub fn declarations_stay_tidy()
    ensures { (from : ℕ) (p : Source) (d : Decls) (s t : Making) → decls_part p d s ≡ Keeps (tt, t) → Tidy from s → Tidy from t }
{}

/// And so do modules, one after the other.
pub fn modules_stay_tidy()
    ensures { (p : Source) (m : ModuleTree) (c d : SoFar) → with_module p m c ≡ Keeps d → TidySoFar c → TidySoFar d }
{}
