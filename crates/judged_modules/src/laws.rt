//! Declarations, procedures and modules that the judgement accepts are well-formed, where what they make is in the whole
//! program.

ghost use Rattle.std.specs.Prelude.{nat_lt, ◌≡◌, ℕ, length, true, Option, Some, None};
ghost use Rattle.ob_syntax.specs.Syntax.{ConstDecl, TypeDecl, VarDecl, Decls};
ghost use Rattle.ob_syntax.specs.Syntax.{Module as ModuleTree};
ghost use Rattle.std.specs.Prelude.{List, [], ◌∷◌};
ghost use Rattle.ob_types.specs.Forms.{all, all_below, types_fine};
ghost use Rattle.ob_judge.specs.Image.{Program as ProgramImage};
ghost use Rattle.ob_types.specs.declared.program.Program.{Program};
ghost use Rattle.ob_types.specs.Meaning.{procedure_of, texts_of};
ghost use Rattle.ob_types.specs.WellFormed.{procedure_fine};
ghost use Rattle.ob_judge.specs.Judged.{Keeps};
ghost use Rattle.ob_judge.specs.Image.{Procedure, Module};
ghost use Rattle.ob_judge.specs.Scopes.{Source};
ghost use Rattle.ob_judge.specs.Making.{Making};
ghost use Rattle.ob_judge.specs.Declarations.{const_part, types_part, var_part, decls_part};
ghost use Rattle.ob_judge.specs.Modules.{no_modules, first_making, module_part, Parsed, Legal, checked};
ghost use Rattle.judged_tree.specs.TypeShapes.{pointer_bases};
ghost use Rattle.judged_tree.specs.Plain.{plain_procedure, plain_program};
ghost use Rattle.judged_tree.specs.Outline.{outlined_procedure, outlined_program};
ghost use Rattle.judged_well.specs.Standing.{IsRead, Right};
ghost use Rattle.judged_well.specs.OfProgram.{IsFaithful, IsInside};
ghost use Rattle.judged_modules.specs.Final.{Final, setting_in, AreOrders, final_of};
ghost use Rattle.judged_modules.specs.Agrees.{Agrees};
ghost use Rattle.judged_modules.specs.Sound.{Sound, IsHere};
ghost use Rattle.judged_modules.specs.Made.{IsWell, AllMade};

/// A sound scope whose makings are in the whole program is a right world, in each procedure that is judged there.
pub fn sound_scopes_are_right()
    ensures { (w : Final) (p : Source) (s : Making) → Agrees w s → Sound w s.world
        → (f : ℕ) → IsHere s.world.procedure f → Right (setting_in w f) p s.world }
{}

/// The scope in which the first module's imports and declarations begin is sound.
pub fn the_first_scope_is_sound()
    ensures { (w : Final) → Sound w (first_making no_modules).world }
{}

/// A constant that is declared leaves the scope sound.
pub fn constants_stay_sound()
    ensures { (w : Final) → AreOrders w → (p : Source) → IsRead p → (d : ConstDecl) (s t : Making) → const_part p d s ≡ Keeps (tt, t)
        → Agrees w t → Sound w s.world → Sound w t.world }
{}

/// And so do the types of a TYPE part, with the pointer types whose base is declared later in it.
pub fn types_stay_sound()
    ensures { (w : Final) → AreOrders w → (p : Source) → IsRead p → (ds : List TypeDecl) (s t : Making) → types_part p ds s ≡ Keeps (tt, t)
        → Agrees w t → Sound w s.world → Sound w t.world }
{}

/// And variables.
pub fn variables_stay_sound()
    ensures { (w : Final) → AreOrders w → (p : Source) → IsRead p → (d : VarDecl) (s t : Making) → var_part p d s ≡ Keeps (tt, t)
        → Agrees w t → Sound w s.world → Sound w t.world }
{}

/// And all declarations of a scope, whose procedures are well-formed.
pub fn procedures_are_well()
    ensures { (w : Final) → AreOrders w → (p : Source) → IsRead p → (d : Decls) (s t : Making) → decls_part p d s ≡ Keeps (tt, t)
        → Agrees w t → Sound w s.world → Sound w t.world × AllMade w (length s.procedures) t }
{}

/// And a module, whose procedures and body are well-formed.
pub fn modules_are_well()
    ensures { (w : Final) → AreOrders w → (p : Source) → IsRead p → (m : ModuleTree) (s t : Making) (r : Module) → module_part p m s ≡ Keeps (r, t)
        → s.world.procedure ≡ None → Agrees w t → Sound w s.world → Sound w t.world × AllMade w (length s.procedures) t }
{}

/// A procedure of a checked program with such an image is well-formed.
pub fn well_procedures_are_fine()
    ensures { (p : Program) → IsFaithful p.types → IsInside p → (f : ℕ) (q : Procedure) → IsWell (final_of p) f q
        → plain_procedure p.types (procedure_of p f) ≡ outlined_procedure (pointer_bases p.types.kinds) q → procedure_fine p f ≡ true }
{}

/// Each procedure and the body of a checked program of one module are well-formed, where the judgement accepts the module
/// and the program is what it gives, as code holds it.
pub fn one_module_has_fine_procedures()
    ensures { (p : Program) → IsFaithful p.types → IsInside p → types_fine p.types ≡ true → (m : Parsed) → IsRead m.source
        → (q : ProgramImage) → checked (m ∷ []) ≡ Legal q → (sources : List (List ℕ)) → plain_program sources p ≡ outlined_program q
        → all_below (length p.procedures) (procedure_fine p) ≡ true }
{}

/// And the strings that it uses as arrays are bytes.
pub fn one_module_has_byte_strings()
    ensures { (p : Program) → IsFaithful p.types → IsInside p → types_fine p.types ≡ true → (m : Parsed) → IsRead m.source
        → (q : ProgramImage) → checked (m ∷ []) ≡ Legal q → (sources : List (List ℕ)) → plain_program sources p ≡ outlined_program q
        → all (all (λ c. nat_lt c 256)) (texts_of p.procedures) ≡ true }
{}
