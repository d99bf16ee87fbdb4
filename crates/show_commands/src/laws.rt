//! Pages of texts come to one thing.

ghost use Rattle.std.specs.Prelude.{◌≡◌, ℕ, List, Option};
ghost use Rattle.program_page.specs.words.alloc_choice.declared.choice.Choice.{Choice};
ghost use Rattle.program_page.specs.words.alloc_choice.declared.choice.Policy.{Policy};
ghost use Rattle.trc_answers.specs.Verdict.{Verdict};
ghost use Rattle.show_commands.specs.Shows.{ShowComesTo};

use program_page::image_words::{
    lowerings_have_one_image, texts_have_one_first_fault, texts_have_one_lowering,
};

/// Texts whose page is written come to one thing at most: to one refusal, or to one page. This follows from the laws of texts, which
/// are cited as calls that do nothing.
pub fn shows_come_to_one()
    ensures { (choice : Choice) (against : Option Policy) (out : List ℕ) (names texts : List (List ℕ)) (a b : Verdict)
        → ShowComesTo choice against out names texts a → ShowComesTo choice against out names texts b → a ≡ b }
{
    texts_have_one_first_fault();
    texts_have_one_lowering();
    lowerings_have_one_image();
}
