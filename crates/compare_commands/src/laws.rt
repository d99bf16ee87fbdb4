//! The law of the table.

ghost use Rattle.std.specs.Prelude.{◌≡◌, ℕ, List, Some};
ghost use Rattle.trc_answers.specs.Verdict.{Verdict};
ghost use Rattle.compare_commands.specs.Compares.{ComparesComeTo};

use program_figures::image_words::{
    lowerings_have_one_image, texts_have_one_first_fault, texts_have_one_lowering,
};

/// Where it is told what is left of the input, texts are refused for one reason or have one table, with so many steps, whatever program
/// they are found to be. This follows from the laws of texts, which are cited as calls that do nothing.
pub fn compares_come_to_one()
    ensures { (left : List ℕ) (jobs steps : ℕ) (texts : List (List ℕ)) (a b : Verdict)
        → ComparesComeTo (Some left) jobs steps texts a → ComparesComeTo (Some left) jobs steps texts b → a ≡ b }
{
    texts_have_one_first_fault();
    texts_have_one_lowering();
    lowerings_have_one_image();
}
