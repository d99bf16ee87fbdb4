//! Known types stay known: each part of the judgement only adds types.

ghost use Rattle.std.specs.Prelude.{◌≡◌, ℕ, Bool, Option};
ghost use Rattle.ob_syntax.specs.Syntax.{Decls, Formals, Procedures};
ghost use Rattle.ob_syntax.specs.declared.names.Identdef.{Identdef};
ghost use Rattle.ob_judge.specs.Declarations.{decls_part, heading, procedures_part};
ghost use Rattle.ob_judge.specs.Judged.{Keeps};
ghost use Rattle.ob_judge.specs.Making.{Making};
ghost use Rattle.ob_judge.specs.Parameters.{Listed};
ghost use Rattle.ob_judge.specs.Scopes.{Source};
ghost use Rattle.ob_judge.specs.Shapes.{Known, Shape};
ghost use Rattle.judged_modules.specs.steps.Procedures.{OneProcedure};
ghost use Rattle.judged_modules.specs.steps.Steps.{procedure_part};
ghost use Rattle.later_types.specs.Later.{StaysKnown};

/// Types that are known as they were stay known,
pub fn same_types_stay_known()
    ensures { (a b : Known) → b.records ≡ a.records → b.bases ≡ a.bases → StaysKnown a b }
{}

/// and from one state to the next.
pub fn types_stay_known_on()
    ensures { (a b c : Known) → StaysKnown a b → StaysKnown b c → StaysKnown a c }
{}

/// A heading leaves known all types that were,
pub fn headings_leave_types_known()
    ensures { (p : Source) (f : ℕ) (name : Identdef) (x : Option Formals) (is_local : Bool) (s t : Making) (h : Listed × Shape)
        → heading p f name x is_local s ≡ Keeps (h, t) → StaysKnown s.world.known t.world.known }
{}

/// so do all declarations of a scope,
pub fn declarations_leave_types_known()
    ensures { (p : Source) (d : Decls) (s t : Making) → decls_part p d s ≡ Keeps (tt, t) → StaysKnown s.world.known t.world.known }
{}

/// a procedure,
pub fn procedures_leave_types_known()
    ensures { (p : Source) (q : OneProcedure) (s t : Making) → procedure_part p q s ≡ Keeps (tt, t) → StaysKnown s.world.known t.world.known }
{}

/// and procedures one after the other.
pub fn all_procedures_leave_types_known()
    ensures { (p : Source) (x : Procedures) (s t : Making) → procedures_part p x s ≡ Keeps (tt, t) → StaysKnown s.world.known t.world.known }
{}
