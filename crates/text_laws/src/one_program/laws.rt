//! The laws of one lowering and one meaning.

ghost use Rattle.std.specs.Prelude.{◌≡◌, ℕ, List, true};
ghost use Rattle.ob_types.specs.Meaning.{meaning};
ghost use Rattle.ob_types.specs.WellFormed.{well_formed};
ghost use Rattle.ob_types.specs.declared.program.Program.{Program};
ghost use Rattle.one_lowering.specs.Forms.{HaveOneLowering};
ghost use Rattle.source_image.specs.source_program.Texts.{IsProgramOfTexts};

use crate::judged_shapes::{modules_have_one_lowering, modules_have_one_meaning};
use crate::one_reading::texts_are_read_once;

/// Well-formed programs that the same texts are have one lowering, and pass the same limit first, if one is passed. This follows
/// from the laws below, which are cited as calls that do nothing.
pub fn texts_have_one_lowering()
    ensures { (texts : List (List ℕ)) (p q : Program) → IsProgramOfTexts texts p → IsProgramOfTexts texts q
        → well_formed p ≡ true → well_formed q ≡ true → HaveOneLowering p q }
{
    texts_are_read_once();
    modules_have_one_lowering();
}

/// And they mean the same, turn by turn: on each input and with each number of turns they end, trap or go on alike, with one output.
/// This follows from the laws below, which are cited as calls that do nothing.
pub fn texts_have_one_meaning()
    ensures { (texts : List (List ℕ)) (p q : Program) → IsProgramOfTexts texts p → IsProgramOfTexts texts q
        → well_formed p ≡ true → well_formed q ≡ true
        → (input : List ℕ) (turns : ℕ) → meaning p input turns ≡ meaning q input turns }
{
    texts_are_read_once();
    modules_have_one_meaning();
}
