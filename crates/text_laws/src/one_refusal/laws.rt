//! The laws of refusals.

ghost use Rattle.std.specs.Prelude.{◌≡◌, ℕ, List};
ghost use Rattle.source_image.specs.alloc_choice.declared.choice.Choice.{Choice};
ghost use Rattle.source_image.specs.program_image.declared.imaging.Compiled.{Compiled};
ghost use Rattle.source_image.specs.Images.{IsImageOfTexts, AreTracesOfTexts};
ghost use Rattle.source_image.specs.Refusals.{IsRefusal, IsRefusalOfTraces};
ghost use Rattle.source_image.specs.declared.refusal.Refusal.{Refusal};
ghost use Rattle.source_image.specs.declared.refusal.Refusal.TheVariants.{Memory};

use crate::one_fault::texts_have_one_first_fault;
use crate::one_image::lowerings_have_one_image;
use crate::one_program::texts_have_one_lowering;

/// By choices with the same policy, builder and number of registers texts are refused for one reason, but for want of memory. This
/// and what follows are shown by the laws below, which are cited as calls that do nothing.
pub fn texts_have_one_refusal()
    ensures { (a b : Choice) (texts : List (List ℕ)) (r s : Refusal) → a.policy ≡ b.policy → a.builder ≡ b.builder → a.regs ≡ b.regs
        → IsRefusal a texts r → IsRefusal b texts s → ¬ (r ≡ Memory) → ¬ (s ≡ Memory) → r ≡ s }
{
    texts_have_one_first_fault();
    texts_have_one_lowering();
}

/// So it is where their traces are told, whatever the registers and the policy.
pub fn texts_have_one_refusal_of_traces()
    ensures { (a b : Choice) (texts : List (List ℕ)) (r s : Refusal) → a.builder ≡ b.builder
        → IsRefusalOfTraces a texts r → IsRefusalOfTraces b texts s → ¬ (r ≡ Memory) → ¬ (s ≡ Memory) → r ≡ s }
{
    texts_have_one_first_fault();
    texts_have_one_lowering();
}

/// Texts that have an image by such a choice are refused for want of memory alone.
pub fn images_exclude_refusals()
    ensures { (a b : Choice) (texts : List (List ℕ)) (made : Compiled) (r : Refusal) → a.policy ≡ b.policy → a.builder ≡ b.builder → a.regs ≡ b.regs
        → IsImageOfTexts a texts made → IsRefusal b texts r → r ≡ Memory }
{
    texts_have_one_first_fault();
    texts_have_one_lowering();
    lowerings_have_one_image();
}

/// And those that have traces.
pub fn traces_exclude_refusals()
    ensures { (a b : Choice) (texts : List (List ℕ)) (lines : List ℕ) (r : Refusal) → a.builder ≡ b.builder
        → AreTracesOfTexts a texts lines → IsRefusalOfTraces b texts r → r ≡ Memory }
{
    texts_have_one_first_fault();
    texts_have_one_lowering();
}

/// The traces of texts are told by the same lines.
pub fn texts_have_one_report()
    ensures { (a b : Choice) (texts : List (List ℕ)) (lines others : List ℕ) → a.policy ≡ b.policy → a.builder ≡ b.builder
        → AreTracesOfTexts a texts lines → AreTracesOfTexts b texts others → lines ≡ others }
{
    texts_have_one_lowering();
}
