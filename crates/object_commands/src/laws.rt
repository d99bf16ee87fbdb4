//! Objects of texts, and links of objects, come to one thing.

ghost use Rattle.std.specs.Prelude.{◌≡◌, ℕ, List, Some};
ghost use Rattle.outside.specs.Files.{Held};
ghost use Rattle.note_commands.specs.words.alloc_choice.declared.choice.Choice.{Choice};
ghost use Rattle.trc_answers.specs.Verdict.{Verdict};
ghost use Rattle.object_commands.specs.Objects.{ObjectComesTo};
ghost use Rattle.object_commands.specs.Links.{LinkComesTo};

use note_commands::image_words::{
    texts_have_one_first_fault, texts_have_one_lowering, texts_have_one_refusal_of_traces,
};
use note_commands::{plans_exclude_refusals, texts_have_one_refusal_of_plans};

/// Texts of which the last one's object is written come to one thing at most: to one refusal, or to one object. This follows from the
/// laws of texts, which are cited as calls that do nothing.
pub fn objects_come_to_one()
    ensures { (choice : Choice) (out : List ℕ) (texts : List (List ℕ)) (a b : Verdict)
        → ObjectComesTo choice out texts a → ObjectComesTo choice out texts b → a ≡ b }
{
    texts_have_one_first_fault();
    texts_have_one_lowering();
    texts_have_one_refusal_of_traces();
}

/// Files of objects, where these tell what they hold, come to one thing at most when they are linked: to one refusal, or to one image.
pub fn links_come_to_one()
    ensures { (held : Held) (out : List ℕ) (names : List (List ℕ)) (a b : Verdict)
        → LinkComesTo (Some held) out names a → LinkComesTo (Some held) out names b → a ≡ b }
{
    texts_have_one_lowering();
    texts_have_one_refusal_of_plans();
    plans_exclude_refusals();
}
