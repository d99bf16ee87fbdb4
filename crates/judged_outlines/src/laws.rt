//! Images that the judgement makes stay as they are outlined, whatever pointer types come later.

ghost use Rattle.std.specs.Prelude.{◌≡◌, ℕ, List, Option, option_map};
ghost use Rattle.ob_syntax.specs.Syntax.{Body, Returned};
ghost use Rattle.ob_judge.specs.Declarations.{answer};
ghost use Rattle.ob_judge.specs.Image.{Checked, Procedure, Statements};
ghost use Rattle.ob_judge.specs.Judged.{Keeps};
ghost use Rattle.ob_judge.specs.Making.{Making};
ghost use Rattle.ob_judge.specs.Modules.{SoFar};
ghost use Rattle.ob_judge.specs.Parameters.{Listed};
ghost use Rattle.ob_judge.specs.Scopes.{Source};
ghost use Rattle.ob_judge.specs.Shapes.{Shape};
ghost use Rattle.ob_judge.specs.Statements.{body_of};
ghost use Rattle.judged_tree.specs.Outline.{outlined_checked, outlined_procedure, outlined_statements};
ghost use Rattle.judged_modules.specs.Agrees.{bases_of};
ghost use Rattle.judged_modules.specs.steps.Frames.{Begins};
ghost use Rattle.judged_modules.specs.steps.Procedures.{OneProcedure};
ghost use Rattle.judged_modules.specs.steps.Steps.{completed};
ghost use Rattle.judged_outlines.specs.Upright.{Upright};

/// A body is outlined alike by all later pointer types.
pub fn bodies_keep_outlines()
    ensures { (c : SoFar) (p : Source) (b : Option Body) (s : Making) (xs : Statements) → body_of p s.world b ≡ Keeps xs → Upright c s
        → (later : List (Option ℕ)) → Begins (bases_of s) later → outlined_statements later xs ≡ outlined_statements (bases_of s) xs }
{}

/// So is the expression behind RETURN.
pub fn answers_keep_outlines()
    ensures { (c : SoFar) (p : Source) (result : Shape) (end_word : ℕ) (r : Option Returned) (s : Making) (a : Option Checked)
        → answer p result end_word r s.world ≡ Keeps a → Upright c s → (later : List (Option ℕ)) → Begins (bases_of s) later
        → option_map (outlined_checked later) a ≡ option_map (outlined_checked (bases_of s)) a }
{}

/// So is a whole procedure, where its declarations have been judged.
pub fn procedures_keep_outlines()
    ensures { (c : SoFar) (p : Source) (q : OneProcedure) (h : Listed × Shape) (s : Making) (j : Procedure)
        → completed p q h s ≡ Keeps j → Upright c s
        → (later : List (Option ℕ)) → Begins (bases_of s) later → outlined_procedure later j ≡ outlined_procedure (bases_of s) j }
{}
