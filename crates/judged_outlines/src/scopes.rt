//! Declarations, procedures and modules leave upright what they are judged in.

ghost use Rattle.std.specs.Prelude.{◌≡◌, ℕ, Bool, List, Option, length, true};
ghost use Rattle.ob_syntax.specs.Syntax.{ConstDecl, Decls, Formals, Procedures, TypeDecl, TypeTree, VarDecl};
ghost use Rattle.ob_syntax.specs.Syntax.{Module as ModuleTree};
ghost use Rattle.ob_syntax.specs.declared.modules.Import.{Import};
ghost use Rattle.ob_syntax.specs.declared.names.Identdef.{Identdef};
ghost use Rattle.ob_judge.specs.Declarations.{const_part, each, decls_part, heading, procedures_part, types_part, var_part};
ghost use Rattle.ob_judge.specs.Judged.{Keeps};
ghost use Rattle.ob_judge.specs.Making.{Making, new_procedure};
ghost use Rattle.ob_judge.specs.Modules.{SoFar, first_making, import_part, no_modules, with_module};
ghost use Rattle.ob_judge.specs.Parameters.{Listed, stand};
ghost use Rattle.ob_judge.specs.Scopes.{Source};
ghost use Rattle.ob_judge.specs.Shapes.{Shape};
ghost use Rattle.ob_judge.specs.Types.{type_part};
ghost use Rattle.judged_well.specs.Standing.{is_result};
ghost use Rattle.judged_modules.specs.Agrees.{bases_of};
ghost use Rattle.judged_programs.specs.Tidy.{AreListed, IsInProcedure};
ghost use Rattle.judged_modules.specs.steps.Frames.{entered, left};
ghost use Rattle.judged_modules.specs.steps.Procedures.{OneProcedure};
ghost use Rattle.judged_modules.specs.steps.Steps.{completes, procedure_part};
ghost use Rattle.judged_outlines.specs.Among.{PointsAmong};
ghost use Rattle.judged_outlines.specs.Upright.{MadeWithin, Upright, UprightSoFar};

/// Before the first module all is upright,
pub fn no_modules_are_upright()
    ensures { UprightSoFar no_modules }
{}

/// and each module begins in an upright scope.
pub fn first_scopes_are_upright()
    ensures { (c : SoFar) → UprightSoFar c → Upright c (first_making c) }
{}

/// Names that stand leave it so;
pub fn standing_names_stay_upright()
    ensures { (c : SoFar) (p : Source) (is : List ℕ) (s t : Making) → stand p is s ≡ Keeps (tt, t) → Upright c s → Upright c t }
{}

/// so do imports,
pub fn imports_stay_upright()
    ensures { (c : SoFar) (p : Source) (x : Import) (s t : Making) → import_part p x s ≡ Keeps (tt, t) → Upright c s → Upright c t }
{}

/// all imports of a module,
pub fn all_imports_stay_upright()
    ensures { (c : SoFar) (p : Source) (xs : List Import) (s t : Making) → each (import_part p) xs s ≡ Keeps (tt, t) → Upright c s → Upright c t }
{}

/// constants,
pub fn constants_stay_upright()
    ensures { (c : SoFar) (p : Source) (d : ConstDecl) (s t : Making) → const_part p d s ≡ Keeps (tt, t) → Upright c s → Upright c t }
{}

/// all constants of a scope,
pub fn all_constants_stay_upright()
    ensures { (c : SoFar) (p : Source) (ds : List ConstDecl) (s t : Making) → each (const_part p) ds s ≡ Keeps (tt, t)
        → Upright c s → Upright c t }
{}

/// types, which name pointer types that there are then,
pub fn types_stay_upright()
    ensures { (c : SoFar) (p : Source) (x : TypeTree) (s t : Making) (a : Shape) → type_part p x s ≡ Keeps (a, t)
        → Upright c s → Upright c t × PointsAmong (length (bases_of t)) a }
{}

/// a TYPE part,
pub fn type_parts_stay_upright()
    ensures { (c : SoFar) (p : Source) (ds : List TypeDecl) (s t : Making) → types_part p ds s ≡ Keeps (tt, t) → Upright c s → Upright c t }
{}

/// variables,
pub fn variables_stay_upright()
    ensures { (c : SoFar) (p : Source) (d : VarDecl) (s t : Making) → var_part p d s ≡ Keeps (tt, t) → Upright c s → Upright c t }
{}

/// all variables of a scope,
pub fn all_variables_stay_upright()
    ensures { (c : SoFar) (p : Source) (ds : List VarDecl) (s t : Making) → each (var_part p) ds s ≡ Keeps (tt, t) → Upright c s → Upright c t }
{}

/// all declarations of a scope,
pub fn declarations_stay_upright()
    ensures { (c : SoFar) (p : Source) (d : Decls) (s t : Making) → decls_part p d s ≡ Keeps (tt, t) → Upright c s → Upright c t }
{}

/// a procedure,
pub fn procedures_stay_upright()
    ensures { (c : SoFar) (p : Source) (q : OneProcedure) (s t : Making) → procedure_part p q s ≡ Keeps (tt, t) → Upright c s → Upright c t }
{}

/// and procedures one after the other.
pub fn all_procedures_stay_upright()
    ensures { (c : SoFar) (p : Source) (x : Procedures) (s t : Making) → procedures_part p x s ≡ Keeps (tt, t) → Upright c s → Upright c t }
{}

/// A procedure's parts, one by one: its number,
pub fn numbered_procedures_stay_upright()
    ensures { (c : SoFar) (s t : Making) (f : ℕ) → new_procedure s ≡ Keeps (f, t) → Upright c s → Upright c t }
{}

/// the scope that is opened for it,
pub fn opened_scopes_are_upright()
    ensures { (c : SoFar) (s : Making) (f : ℕ) → Upright c s → Upright c (entered f s) × MadeWithin s (entered f s) }
{}

/// its heading, with parameters and a result of types that they may have, which name pointer types that there are,
pub fn headings_stay_upright()
    ensures { (c : SoFar) (p : Source) (f : ℕ) (name : Identdef) (x : Option Formals) (is_local : Bool) (s t : Making) (l : Listed) (a : Shape)
        → heading p f name x is_local s ≡ Keeps ((l, a), t) → IsInProcedure true s
        → Upright c s → Upright c t × AreListed l × (is_result a ≡ true) × PointsAmong (length (bases_of t)) a }
{}

/// what it is when it is complete,
pub fn completed_procedures_stay_upright()
    ensures { (c : SoFar) (p : Source) (f : ℕ) (q : OneProcedure) (l : Listed) (a : Shape) (s t : Making) → completes p f q (l, a) s ≡ Keeps (tt, t)
        → AreListed l → is_result a ≡ true → Upright c s → Upright c t }
{}

/// and the scope round it, when its own is closed.
pub fn closed_scopes_are_upright()
    ensures { (c : SoFar) (s t : Making) → MadeWithin s t → Upright c s → Upright c t → Upright c (left s t) }
{}

/// In its own scope are made its heading,
pub fn headings_are_made_within()
    ensures { (p : Source) (f : ℕ) (name : Identdef) (x : Option Formals) (is_local : Bool) (s t u : Making) (h : Listed × Shape)
        → heading p f name x is_local t ≡ Keeps (h, u) → MadeWithin s t → MadeWithin s u }
{}

/// its declarations,
pub fn declarations_are_made_within()
    ensures { (p : Source) (d : Decls) (s t u : Making) → decls_part p d t ≡ Keeps (tt, u) → MadeWithin s t → MadeWithin s u }
{}

/// and what it is when it is complete.
pub fn completed_procedures_are_made_within()
    ensures { (p : Source) (f : ℕ) (q : OneProcedure) (h : Listed × Shape) (s t u : Making) → completes p f q h t ≡ Keeps (tt, u)
        → MadeWithin s t → MadeWithin s u }
{}

/// Modules leave it upright, one after the other.
pub fn modules_stay_upright()
    ensures { (p : Source) (m : ModuleTree) (c d : SoFar) → with_module p m c ≡ Keeps d → UprightSoFar c → UprightSoFar d }
{}
