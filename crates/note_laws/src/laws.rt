//! Texts have one image with notes or one refusal, and their notes pass the audit.

ghost use Rattle.std.specs.Prelude.{◌≡◌, ◌≤◌, ℕ, List, Bool, map, true};
ghost use Rattle.image_form.specs.declared.image.Image.{Image};
ghost use Rattle.ob_types.specs.WellFormed.{well_formed};
ghost use Rattle.ob_types.specs.declared.program.Program.{Program};
ghost use Rattle.lir_core.specs.declared.places.TraceOut.{TraceOut};
ghost use Rattle.noted_image.specs.words.alloc_choice.declared.choice.Choice.{Choice};
ghost use Rattle.alloc_audit.specs.declared.verdict.Verdict.TheVariants.{Sound};
ghost use Rattle.alloc_audit.specs.Results.{AreLive};
ghost use Rattle.trace_notes.specs.Notes.{AreNotes, notes};
ghost use Rattle.noted_image.specs.words.back_end.Images.{code_length};
ghost use Rattle.noted_image.specs.placed_image.Shares.{cuts_of};
ghost use Rattle.noted_image.specs.words.source_program.Texts.{IsProgramOfTexts};
ghost use Rattle.noted_image.specs.planned_image.Plans.{IsPlanOfTexts, TellsOfPlan};
ghost use Rattle.noted_image.specs.planned_image.Audits.{IsImageOfResults, verdict_on};
ghost use Rattle.noted_image.specs.planned_image.declared.planning.ProgramPlan.{ProgramPlan};
ghost use Rattle.trace_build.specs.declared.builder.Builder.{Builder};
ghost use Rattle.noted_image.specs.words.source_image.Refusals.{IsRefusalOf};
ghost use Rattle.noted_image.specs.words.source_image.declared.refusal.Refusal.{Refusal};
ghost use Rattle.noted_image.specs.words.source_image.declared.refusal.Refusal.TheVariants.{Memory};
ghost use Rattle.noted_image.specs.Faults.{TellsWithNotes};
ghost use Rattle.noted_image.specs.Notes.{IsNotedImageOfTexts};
ghost use Rattle.noted_image.specs.declared.noting.NotedImage.{NotedImage};

use noted_image::image_words::{
    lowerings_have_one_image, texts_have_one_first_fault, texts_have_one_lowering,
    texts_have_one_refusal_of_traces,
};

/// Results that are read in the notes of texts have the verdict `Sound` on a plan of the same texts by the same builder, the image
/// that is linked from them is the one beside the notes, and its code isn't too long. This follows from the laws below, which are cited as calls that do nothing.
pub fn notes_of_texts_pass()
    ensures pass { (choice : Choice) (texts : List (List ℕ)) (made : NotedImage) (plan : ProgramPlan) (outs : List TraceOut) (lives : List (ℕ → ℕ → Bool))
        → IsNotedImageOfTexts choice texts made → IsPlanOfTexts choice.builder texts plan → AreNotes outs → made.notes.items ≡ notes outs
        → AreLive plan.flows.items lives → verdict_on choice.regs plan lives outs ≡ Sound }
    ensures image { (choice : Choice) (texts : List (List ℕ)) (made : NotedImage) (program : Program) (outs : List TraceOut) (image : Image)
        → IsNotedImageOfTexts choice texts made → IsProgramOfTexts texts program → well_formed program ≡ true → AreNotes outs
        → made.notes.items ≡ notes outs → IsImageOfResults choice.builder choice.regs program outs image → image ≡ made.image }
    ensures code { (choice : Choice) (texts : List (List ℕ)) (made : NotedImage) (plan : ProgramPlan) (outs : List TraceOut)
        → IsNotedImageOfTexts choice texts made → IsPlanOfTexts choice.builder texts plan → AreNotes outs → made.notes.items ≡ notes outs
        → code_length (cuts_of plan.flows.items (map (λ v. v.items) plan.cuts.items) outs) ≤ 262144 }
{
    texts_have_one_lowering();
    lowerings_have_one_image();
}

/// By choices with the same policy, builder and number of registers texts have one image with one list of notes.
pub fn texts_have_one_noted_image()
    ensures { (a b : Choice) (texts : List (List ℕ)) (made other : NotedImage) → a.policy ≡ b.policy → a.builder ≡ b.builder → a.regs ≡ b.regs
        → IsNotedImageOfTexts a texts made → IsNotedImageOfTexts b texts other → (made.image ≡ other.image) × (made.notes.items ≡ other.notes.items) }
{
    texts_have_one_lowering();
    lowerings_have_one_image();
}

/// Where their notes are kept, they are refused for one reason, but for want of memory.
pub fn texts_have_one_refusal_with_notes()
    ensures { (a b : Choice) (texts : List (List ℕ)) (r s : Refusal) → a.policy ≡ b.policy → a.builder ≡ b.builder → a.regs ≡ b.regs
        → IsRefusalOf (TellsWithNotes a) texts r → IsRefusalOf (TellsWithNotes b) texts s → ¬ (r ≡ Memory) → ¬ (s ≡ Memory) → r ≡ s }
{
    texts_have_one_first_fault();
    texts_have_one_lowering();
    lowerings_have_one_image();
}

/// And where they have an image with notes, for want of memory alone.
pub fn noted_images_exclude_refusals()
    ensures { (a b : Choice) (texts : List (List ℕ)) (made : NotedImage) (r : Refusal) → a.policy ≡ b.policy → a.builder ≡ b.builder → a.regs ≡ b.regs
        → IsNotedImageOfTexts a texts made → IsRefusalOf (TellsWithNotes b) texts r → r ≡ Memory }
{
    texts_have_one_first_fault();
    texts_have_one_lowering();
    lowerings_have_one_image();
}

/// So it is where texts are planned.
pub fn texts_have_one_refusal_of_plans()
    ensures { (builder : Builder) (texts : List (List ℕ)) (r s : Refusal)
        → IsRefusalOf (TellsOfPlan builder) texts r → IsRefusalOf (TellsOfPlan builder) texts s → ¬ (r ≡ Memory) → ¬ (s ≡ Memory) → r ≡ s }
{
    texts_have_one_refusal_of_traces();
}

/// And where they have a plan.
pub fn plans_exclude_refusals()
    ensures { (builder : Builder) (texts : List (List ℕ)) (plan : ProgramPlan) (r : Refusal)
        → IsPlanOfTexts builder texts plan → IsRefusalOf (TellsOfPlan builder) texts r → r ≡ Memory }
{
    texts_have_one_first_fault();
    texts_have_one_lowering();
}
