//! What the judgement makes of expressions and statements is well-formed, where all that is in scope is: first as
//! images, and then as the trees of a checked program.

ghost use Rattle.std.specs.Prelude.{◌≡◌, ℕ, List, true, Option, is_some, option_map, nat_lt};
ghost use Rattle.ob_syntax.specs.Syntax.{Expression, Stats, Returned};
ghost use Rattle.ob_types.specs.declared.statements.Checked.{Checked};
ghost use Rattle.ob_types.specs.declared.statements.Stmt.{Stmt};
ghost use Rattle.ob_types.specs.declared.program.Program.{Program};
ghost use Rattle.ob_types.specs.Meaning.{procedure_of};
ghost use Rattle.ob_types.specs.Forms.{all, types_fine};
ghost use Rattle.ob_types.specs.WellFormed.{form_of, answer_fine as answer_is_fine, fine as is_fine};
ghost use Rattle.ob_types.specs.WellFormed.{checked_form as form_of_checked};
ghost use Rattle.ob_judge.specs.Judged.{Keeps};
ghost use Rattle.ob_judge.specs.Image.{Statements};
ghost use Rattle.ob_judge.specs.Texts.{in_statements, in_answer};
ghost use Rattle.ob_judge.specs.Image.{Checked as CheckedImage};
ghost use Rattle.ob_judge.specs.Shapes.{Shape};
ghost use Rattle.ob_judge.specs.Scopes.{World, Source};
ghost use Rattle.ob_judge.specs.Operands.{Operand, checked};
ghost use Rattle.ob_judge.specs.Modules.{no_modules, first_making};
ghost use Rattle.ob_judge.specs.Expressions.{expression, constant};
ghost use Rattle.ob_judge.specs.Statements.{statements};
ghost use Rattle.ob_judge.specs.Declarations.{answer};
ghost use Rattle.judged_tree.specs.TypeShapes.{shape_of, pointer_bases};
ghost use Rattle.judged_tree.specs.Plain.{plain_checked, plain_body};
ghost use Rattle.judged_tree.specs.Outline.{outlined_checked, outlined_statements};
ghost use Rattle.judged_well.specs.Setting.{Setting, IsOrder};
ghost use Rattle.judged_well.specs.Standing.{IsRead, Right, Stands, ConstantStands, good, is_result, is_plain};
ghost use Rattle.judged_well.specs.Typing.{outline, fine_all};
ghost use Rattle.judged_well.specs.OfProgram.{setting_of, IsFaithful, IsInside};
ghost use Rattle.judged_well.specs.Gives.{Gives};

/// Each expression that the judgement accepts is of a form that its type has, or designates what its type says.
pub fn expressions_stand()
    ensures { (e : Setting) → IsOrder e → (p : Source) → IsRead p → (w : World) → Right e p w → (x : Expression) → Gives (Stands e) (expression p w x) }
{}

/// Each constant expression that it accepts has a value of a form that its type has: a string of bytes, or a number in
/// the type's range, and none of a pointer or procedure type.
pub fn constants_stand()
    ensures { (e : Setting) → IsOrder e → (p : Source) → IsRead p → (w : World) → Right e p w → (x : Expression) → Gives (ConstantStands e) (constant p w x) }
{}

/// Each statement sequence that it accepts is well-formed.
pub fn statements_are_fine()
    ensures { (e : Setting) → IsOrder e → (p : Source) → IsRead p → (w : World) → Right e p w → (x : Stats)
        → Gives (λ (xs : Statements). fine_all e (outline e) xs ≡ true) (statements p w x) }
{}

/// The strings in it that are used as arrays are bytes.
pub fn strings_are_bytes()
    ensures { (e : Setting) → IsOrder e → (p : Source) → IsRead p → (w : World) → Right e p w → (x : Stats)
        → Gives (λ (xs : Statements). all (all (λ c. nat_lt c 256)) (in_statements xs) ≡ true) (statements p w x) }
{}

/// And so are those in the expression behind RETURN.
pub fn answered_strings_are_bytes()
    ensures { (e : Setting) → IsOrder e → (p : Source) → IsRead p → (w : World) → Right e p w → (result : Shape) → is_result result ≡ true → good e result ≡ true
        → (end_word : ℕ) (r : Option Returned) → Gives (λ (o : Option CheckedImage). all (all (λ c. nat_lt c 256)) (in_answer o) ≡ true) (answer p result end_word r w) }
{}

/// A whole expression of a checked program, whose image the judgement gave, has a form, and the type that it says: where
/// the type is one that values have.
pub fn expressions_have_forms()
    ensures { (p : Program) → IsFaithful p.types → IsInside p → types_fine p.types ≡ true → (at : ℕ)
        → (s : Source) → IsRead s → (w : World) → Right (setting_of p at) s w
        → (x : Expression) (o : Operand) → expression s w x ≡ Keeps o → is_plain o.shape ≡ true
        → (t : Checked) → plain_checked p.types (procedure_of p at).texts t ≡ outlined_checked (pointer_bases p.types.kinds) (checked o)
        → is_some (form_of_checked p at t) ≡ true }
{}

/// A body of a checked program, whose image the judgement gave, is well-formed.
pub fn bodies_are_fine()
    ensures { (p : Program) → IsFaithful p.types → IsInside p → types_fine p.types ≡ true → (at : ℕ)
        → (s : Source) → IsRead s → (w : World) → Right (setting_of p at) s w
        → (x : Stats) (xs : Statements) → statements s w x ≡ Keeps xs
        → (body : List Stmt) → plain_body p.types (procedure_of p at).texts body ≡ outlined_statements (pointer_bases p.types.kinds) xs
        → all (is_fine p at) body ≡ true }
{}

/// And so is the expression behind RETURN, for a result of type k, or its absence where there is no result.
pub fn answers_are_fine()
    ensures { (p : Program) → IsFaithful p.types → IsInside p → types_fine p.types ≡ true → (at : ℕ)
        → (s : Source) → IsRead s → (w : World) → Right (setting_of p at) s w
        → (k : ℕ) → is_result (shape_of p.types k) ≡ true → good (setting_of p at) (shape_of p.types k) ≡ true
        → (end_word : ℕ) (r : Option Returned) (c : Option CheckedImage) → answer s (shape_of p.types k) end_word r w ≡ Keeps c
        → (o : Option Checked) → option_map (plain_checked p.types (procedure_of p at).texts) o ≡ option_map (outlined_checked (pointer_bases p.types.kinds)) c
        → answer_is_fine p at (form_of p k) o ≡ true }
{}

/// The world in which the first module's imports and declarations begin is right, in each setting.
pub fn the_first_world_is_right()
    ensures { (e : Setting) (p : Source) → Right e p (first_making no_modules).world }
{}
