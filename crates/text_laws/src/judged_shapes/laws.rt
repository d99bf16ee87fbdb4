//! The laws of closed shapes.

ghost use Rattle.std.specs.Prelude.{◌≡◌, ℕ, List, true};
ghost use Rattle.ob_types.specs.Meaning.{meaning};
ghost use Rattle.ob_types.specs.WellFormed.{well_formed};
ghost use Rattle.ob_types.specs.declared.program.Program.{Program};
ghost use Rattle.ob_judge.specs.Image.{Program as ProgramImage};
ghost use Rattle.ob_judge.specs.Modules.{Legal, Parsed, checked};
ghost use Rattle.judged_programs.specs.ProgramOf.{IsProgramOf};
ghost use Rattle.one_lowering.specs.Forms.{HasClosedTypes, HaveOneLowering};
ghost use Rattle.one_lowering.specs.Order.{UsesInOrder};

use one_lowering::{forms_have_one_lowering, ordered_programs_have_one_form};
use one_meaning::forms_have_one_meaning;

/// Each array in the type of a field, a variable or a parameter of an image that the judgement gives has elements of some type.
pub fn judged_images_have_closed_types()
    ensures { (ms : List Parsed) (image : ProgramImage) → checked ms ≡ Legal image → HasClosedTypes image }
{}

/// Well-formed programs that the judgement gives of the same modules, as code holds them, have one lowering, where their uses of
/// strings are in order. This follows from the laws below, which are cited as calls that do nothing.
pub fn modules_have_one_lowering()
    ensures { (ms : List Parsed) (p q : Program) → IsProgramOf ms p → IsProgramOf ms q
        → well_formed p ≡ true → well_formed q ≡ true → UsesInOrder p → UsesInOrder q → HaveOneLowering p q }
{
    ordered_programs_have_one_form();
    forms_have_one_lowering();
}

/// And they come out alike on each input with each number of turns.
pub fn modules_have_one_meaning()
    ensures { (ms : List Parsed) (p q : Program) → IsProgramOf ms p → IsProgramOf ms q
        → well_formed p ≡ true → well_formed q ≡ true → UsesInOrder p → UsesInOrder q
        → (input : List ℕ) (turns : ℕ) → meaning p input turns ≡ meaning q input turns }
{
    ordered_programs_have_one_form();
    forms_have_one_meaning();
}
