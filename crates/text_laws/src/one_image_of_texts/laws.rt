//! The law of one image of texts.

ghost use Rattle.std.specs.Prelude.{◌≡◌, ℕ, List};
ghost use Rattle.source_image.specs.alloc_choice.declared.choice.Choice.{Choice};
ghost use Rattle.source_image.specs.program_image.declared.imaging.Compiled.{Compiled};
ghost use Rattle.source_image.specs.Images.{IsImageOfTexts};

use crate::one_image::lowerings_have_one_image;
use crate::one_program::texts_have_one_lowering;

/// By choices with the same policy, builder and number of registers texts have one image, made of as many procedures and traces:
/// how many workers there are, and what the definitions leave open of the program that the texts are, changes neither. This
/// follows from the laws below, which are cited as calls that do nothing.
pub fn texts_have_one_image()
    ensures { (a b : Choice) (texts : List (List ℕ)) (made other : Compiled)
        → a.policy ≡ b.policy → a.builder ≡ b.builder → a.regs ≡ b.regs
        → IsImageOfTexts a texts made → IsImageOfTexts b texts other
        → (made.image ≡ other.image) × (made.procedures ≡ other.procedures) × (made.traces ≡ other.traces) }
{
    texts_have_one_lowering();
    lowerings_have_one_image();
}
