//! The judgement of a body, of RETURN and of a whole procedure, where more types are known.

ghost use Rattle.std.specs.Prelude.{◌≡◌, ℕ, Option};
ghost use Rattle.ob_syntax.specs.Syntax.{Body, Returned};
ghost use Rattle.ob_judge.specs.Declarations.{answer};
ghost use Rattle.ob_judge.specs.Making.{Making};
ghost use Rattle.ob_judge.specs.Modules.{SoFar};
ghost use Rattle.ob_judge.specs.Parameters.{Listed};
ghost use Rattle.ob_judge.specs.Scopes.{Source};
ghost use Rattle.ob_judge.specs.Shapes.{Known, Shape};
ghost use Rattle.ob_judge.specs.Statements.{body_of};
ghost use Rattle.judged_modules.specs.steps.Procedures.{OneProcedure};
ghost use Rattle.judged_modules.specs.steps.Steps.{completed};
ghost use Rattle.judged_outlines.specs.Upright.{Upright};
ghost use Rattle.later_types.specs.Later.{IsRooted, Rooted, StaysKnown, with_types};

/// A body is judged alike where more types are known.
pub fn bodies_are_judged_alike()
    ensures { (c : SoFar) (p : Source) (b : Option Body) (s : Making) (later : Known) → Upright c s → Rooted s → StaysKnown s.world.known later
        → body_of p (with_types later s).world b ≡ body_of p s.world b }
{}

/// So is RETURN, in a procedure with a result of a type that names types that there are.
pub fn answers_are_judged_alike()
    ensures { (c : SoFar) (p : Source) (result : Shape) (end_word : ℕ) (r : Option Returned) (s : Making) (later : Known)
        → Upright c s → Rooted s → IsRooted s result → StaysKnown s.world.known later
        → answer p result end_word r (with_types later s).world ≡ answer p result end_word r s.world }
{}

/// So is a whole procedure, where its declarations have been judged.
pub fn procedures_are_completed_alike()
    ensures { (c : SoFar) (p : Source) (q : OneProcedure) (h : Listed × Shape) (s : Making) (later : Known)
        → Upright c s → Rooted s → IsRooted s h.1 → StaysKnown s.world.known later
        → completed p q h (with_types later s) ≡ completed p q h s }
{}
