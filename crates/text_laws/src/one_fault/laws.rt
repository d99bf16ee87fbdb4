//! The law of one first fault.

ghost use Rattle.std.specs.Prelude.{◌≡◌, ℕ, List};
ghost use Rattle.ob_types.specs.declared.program.Program.{Program};
ghost use Rattle.source_image.specs.source_program.Texts.{IsProgramOfTexts, IsSourceFault};
ghost use Rattle.source_image.specs.source_program.declared.fault.SourceFault.{SourceFault};
ghost use Rattle.source_image.specs.source_program.declared.fault.SourceFault.TheVariants.{Memory};

use crate::one_reading::texts_are_read_once;

/// Texts have one first fault, or they are a program, and never both; want of memory alone may come beside either. This follows
/// from the law below, which is cited as a call that does nothing.
pub fn texts_have_one_first_fault()
    ensures fault { (texts : List (List ℕ)) (a b : SourceFault) → IsSourceFault texts a → IsSourceFault texts b
        → ¬ (a ≡ Memory) → ¬ (b ≡ Memory) → a ≡ b }
    ensures apart { (texts : List (List ℕ)) (p : Program) (a : SourceFault) → IsProgramOfTexts texts p → IsSourceFault texts a
        → a ≡ Memory }
{
    texts_are_read_once();
}
