//! The laws of meanings that are done.

ghost use Rattle.std.specs.Prelude.{◌≡◌, ℕ, List, Some};
ghost use Rattle.image_form.specs.declared.image.Image.{Image};
ghost use Rattle.a64_memory.specs.Memory.{AreBytes};
ghost use Rattle.ob_types.specs.declared.program.Program.{Program};
ghost use Rattle.trc_texts.specs.words.alloc_choice.declared.choice.Choice.{Choice};
ghost use Rattle.trc_answers.specs.Verdict.{Verdict};
ghost use Rattle.meaning_commands.specs.Agreements.{Suffice, TellTheSame};
ghost use Rattle.meaning_commands.specs.Comparisons.{BothComeTo};
ghost use Rattle.meaning_commands.specs.Meanings.{MeanComeTo};
ghost use Rattle.meaning_commands.specs.Programs.{IsImageOfProgram};

use ob_laws::over_stays_over;
use trc_texts::image_words::{
    lowerings_have_one_image, texts_have_one_first_fault, texts_have_one_lowering,
    texts_have_one_meaning,
};

/// Where turns and steps suffice, a program and its image are told by the same line: (n + 1) * L steps suffice for a meaning that is
/// over within n turns, where the image has L words of code, and 8 * m + 8 turns for a machine that is over within m steps.
pub fn both_agree()
    ensures { (choice : Choice) (p : Program) (image : Image) (steps turns : ℕ) (input : List ℕ)
        → IsImageOfProgram choice p image → AreBytes input → Suffice p image steps turns input → TellTheSame p image steps turns input }
{
    over_stays_over();
}

/// Where it is told what is left of the input, texts are refused for one reason, or what they mean is done in one way, with one cause and
/// one output, whatever program they are found to be: how many turns suffice is told by the texts. This follows from the laws of texts,
/// which are cited as calls that do nothing.
pub fn meanings_come_to_one()
    ensures { (left : List ℕ) (turns : ℕ) (texts : List (List ℕ)) (a b : Verdict)
        → MeanComeTo (Some left) turns texts a → MeanComeTo (Some left) turns texts b → a ≡ b }
{
    texts_have_one_first_fault();
    texts_have_one_lowering();
    texts_have_one_meaning();
}

/// And it is told by one pair of lines beside the run of their image, by one choice and with so many steps and turns.
pub fn comparisons_come_to_one()
    ensures { (left : List ℕ) (choice : Choice) (steps turns : ℕ) (texts : List (List ℕ)) (a b : Verdict)
        → BothComeTo (Some left) choice steps turns texts a → BothComeTo (Some left) choice steps turns texts b → a ≡ b }
{
    texts_have_one_first_fault();
    texts_have_one_lowering();
    texts_have_one_meaning();
    lowerings_have_one_image();
}
