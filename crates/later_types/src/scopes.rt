//! Declarations, procedures and modules leave rooted what they are judged in.

ghost use Rattle.std.specs.Prelude.{◌≡◌, ℕ, Bool, List, Option, length};
ghost use Rattle.ob_syntax.specs.Syntax.{ConstDecl, Decls, Formals, Procedures, TypeDecl, TypeTree, VarDecl};
ghost use Rattle.ob_syntax.specs.Syntax.{Module as ModuleTree};
ghost use Rattle.ob_syntax.specs.declared.modules.Import.{Import};
ghost use Rattle.ob_syntax.specs.declared.names.Identdef.{Identdef};
ghost use Rattle.ob_judge.specs.Declarations.{const_part, each, decls_part, heading, procedures_part, types_part, var_part};
ghost use Rattle.ob_judge.specs.Judged.{Keeps};
ghost use Rattle.ob_judge.specs.Making.{Making, new_procedure};
ghost use Rattle.ob_judge.specs.Modules.{SoFar, first_making, import_part, no_modules, with_module};
ghost use Rattle.ob_judge.specs.Parameters.{Listed, stand};
ghost use Rattle.ob_judge.specs.Scopes.{Source};
ghost use Rattle.ob_judge.specs.Shapes.{Shape};
ghost use Rattle.ob_judge.specs.Types.{type_part};
ghost use Rattle.judged_modules.specs.Agrees.{bases_of};
ghost use Rattle.judged_modules.specs.steps.Frames.{entered, left};
ghost use Rattle.judged_modules.specs.steps.Procedures.{OneProcedure};
ghost use Rattle.judged_modules.specs.steps.Steps.{completes, procedure_part};
ghost use Rattle.judged_outlines.specs.Among.{PointsAmong};
ghost use Rattle.judged_outlines.specs.Upright.{Upright, UprightSoFar};
ghost use Rattle.later_types.specs.Later.{IsRooted, Rooted, RootedSoFar, StaysKnown};

/// Before the first module all is rooted,
pub fn no_modules_are_rooted()
    ensures { RootedSoFar no_modules }
{}

/// and each module begins in a rooted scope.
pub fn first_scopes_are_rooted()
    ensures { (c : SoFar) → RootedSoFar c → Rooted (first_making c) }
{}

/// Names that stand leave it so;
pub fn standing_names_stay_rooted()
    ensures { (p : Source) (is : List ℕ) (s t : Making) → stand p is s ≡ Keeps (tt, t) → Rooted s → Rooted t }
{}

/// so do imports,
pub fn imports_stay_rooted()
    ensures { (p : Source) (x : Import) (s t : Making) → import_part p x s ≡ Keeps (tt, t) → Rooted s → Rooted t }
{}

/// all imports of a module,
pub fn all_imports_stay_rooted()
    ensures { (p : Source) (xs : List Import) (s t : Making) → each (import_part p) xs s ≡ Keeps (tt, t) → Rooted s → Rooted t }
{}

/// constants,
pub fn constants_stay_rooted()
    ensures { (c : SoFar) (p : Source) (d : ConstDecl) (s t : Making) → const_part p d s ≡ Keeps (tt, t) → Upright c s → Rooted s → Rooted t }
{}

/// all constants of a scope,
pub fn all_constants_stay_rooted()
    ensures { (c : SoFar) (p : Source) (ds : List ConstDecl) (s t : Making) → each (const_part p) ds s ≡ Keeps (tt, t)
        → Upright c s → Rooted s → Rooted t }
{}

/// types, which name types that there are then,
pub fn types_stay_rooted()
    ensures { (p : Source) (x : TypeTree) (s t : Making) (a : Shape) → type_part p x s ≡ Keeps (a, t) → PointsAmong (length (bases_of t)) a
        → Rooted s → Rooted t × IsRooted t a }
{}

/// a TYPE part,
pub fn type_parts_stay_rooted()
    ensures { (p : Source) (ds : List TypeDecl) (s t : Making) → types_part p ds s ≡ Keeps (tt, t) → Rooted s → Rooted t }
{}

/// variables,
pub fn variables_stay_rooted()
    ensures { (p : Source) (d : VarDecl) (s t : Making) → var_part p d s ≡ Keeps (tt, t) → Rooted s → Rooted t }
{}

/// all variables of a scope,
pub fn all_variables_stay_rooted()
    ensures { (p : Source) (ds : List VarDecl) (s t : Making) → each (var_part p) ds s ≡ Keeps (tt, t) → Rooted s → Rooted t }
{}

/// all declarations of a scope,
pub fn declarations_stay_rooted()
    ensures { (c : SoFar) (p : Source) (d : Decls) (s t : Making) → decls_part p d s ≡ Keeps (tt, t) → Upright c s → Rooted s → Rooted t }
{}

/// a procedure,
pub fn procedures_stay_rooted()
    ensures { (c : SoFar) (p : Source) (q : OneProcedure) (s t : Making) → procedure_part p q s ≡ Keeps (tt, t) → Upright c s → Rooted s → Rooted t }
{}

/// and procedures one after the other.
pub fn all_procedures_stay_rooted()
    ensures { (c : SoFar) (p : Source) (x : Procedures) (s t : Making) → procedures_part p x s ≡ Keeps (tt, t) → Upright c s → Rooted s → Rooted t }
{}

/// A procedure's parts, one by one: its number,
pub fn numbered_procedures_stay_rooted()
    ensures { (s t : Making) (f : ℕ) → new_procedure s ≡ Keeps (f, t) → Rooted s → Rooted t }
{}

/// the scope that is opened for it,
pub fn opened_scopes_are_rooted()
    ensures { (s : Making) (f : ℕ) → Rooted s → Rooted (entered f s) }
{}

/// its heading, with a result of a type that names types that there are,
pub fn headings_stay_rooted()
    ensures { (p : Source) (f : ℕ) (name : Identdef) (x : Option Formals) (is_local : Bool) (s t : Making) (l : Listed) (a : Shape)
        → heading p f name x is_local s ≡ Keeps ((l, a), t) → PointsAmong (length (bases_of t)) a → Rooted s → Rooted t × IsRooted t a }
{}

/// what it is when it is complete,
pub fn completed_procedures_stay_rooted()
    ensures { (p : Source) (f : ℕ) (q : OneProcedure) (h : Listed × Shape) (s t : Making) → completes p f q h s ≡ Keeps (tt, t)
        → Rooted s → Rooted t }
{}

/// and the scope round it, when its own is closed.
pub fn closed_scopes_are_rooted()
    ensures { (s t : Making) → StaysKnown s.world.known t.world.known → Rooted s → Rooted t → Rooted (left s t) }
{}

/// Modules leave it rooted, one after the other.
pub fn modules_stay_rooted()
    ensures { (p : Source) (m : ModuleTree) (c d : SoFar) → with_module p m c ≡ Keeps d → UprightSoFar c → RootedSoFar c → RootedSoFar d }
{}
