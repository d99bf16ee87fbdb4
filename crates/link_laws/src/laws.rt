//! What is linked of the objects of texts.

ghost use Rattle.std.specs.Prelude.{◌≡◌, ◌≤◌, ℕ, List, Some, length};
ghost use Rattle.outside.specs.Files.{Held};
ghost use Rattle.object_commands.specs.words.alloc_choice.declared.choice.Choice.{Choice};
ghost use Rattle.object_commands.specs.words.program_image.declared.imaging.Compiled.{Compiled};
ghost use Rattle.object_commands.specs.words.source_image.Images.{IsImageOfTexts};
ghost use Rattle.object_form.specs.declared.object.Object.{Object};
ghost use Rattle.object_commands.specs.object_laws.Objects.{AreObjectsOfTexts};
ghost use Rattle.trc_answers.specs.Reading.{most_modules};
ghost use Rattle.trc_answers.specs.Verdict.{Verdict, Written};
ghost use Rattle.object_commands.specs.Links.{AreHeld, AreObjectsIn, LinkComesTo};

use object_commands::image_words::{texts_have_one_first_fault, texts_have_one_lowering};
use object_commands::objects_link_as_built;

/// Where files hold the bytes of the objects of texts, in the order of the texts, and the texts have an image by the same policy, builder
/// and number of registers, linking these files comes to that image and to nothing else. This follows from the laws below, which are
/// cited as calls that do nothing.
pub fn links_write_what_is_built()
    ensures { (a b : Choice) (texts : List (List ℕ)) (objects : List Object) (made : Compiled) (held : Held) (out : List ℕ) (names contents : List (List ℕ)) (verdict : Verdict)
        → a.policy ≡ b.policy → a.builder ≡ b.builder → a.regs ≡ b.regs → AreObjectsOfTexts a texts objects → IsImageOfTexts b texts made
        → length names ≤ most_modules → AreHeld (Some held) names contents → AreObjectsIn contents objects
        → LinkComesTo (Some held) out names verdict → Written out made.image verdict }
{
    objects_link_as_built();
    texts_have_one_first_fault();
    texts_have_one_lowering();
}
