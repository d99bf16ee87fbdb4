//! What the objects of texts have, and what they make.

ghost use Rattle.std.specs.Prelude.{◌≡◌, ◌≤◌, ℕ, List, Bool, map, true};
ghost use Rattle.image_form.specs.declared.image.Image.{Image};
ghost use Rattle.ob_types.specs.WellFormed.{well_formed};
ghost use Rattle.ob_types.specs.declared.program.Program.{Program};
ghost use Rattle.ssa_lowered.specs.Lowered.{lowered};
ghost use Rattle.linked_flows.specs.Allocations.{Cut};
ghost use Rattle.module_object.specs.words.alloc_choice.declared.choice.Choice.{Choice};
ghost use Rattle.alloc_audit.specs.declared.verdict.Verdict.TheVariants.{Sound};
ghost use Rattle.alloc_audit.specs.Results.{AreLive};
ghost use Rattle.module_object.specs.audited_allocations.Joined.{joined};
ghost use Rattle.module_object.specs.words.back_end.Images.{AreCutsOf, code_length};
ghost use Rattle.module_object.specs.placed_image.Shares.{cuts_of};
ghost use Rattle.module_object.specs.words.program_image.declared.imaging.Compiled.{Compiled};
ghost use Rattle.module_object.specs.words.source_program.Texts.{IsProgramOfTexts};
ghost use Rattle.module_object.specs.words.source_image.Images.{IsImageOfTexts};
ghost use Rattle.module_object.specs.planned_image.Plans.{IsPlanOfTexts};
ghost use Rattle.module_object.specs.planned_image.Audits.{IsImageOfResults, verdict_on};
ghost use Rattle.module_object.specs.planned_image.declared.planning.ProgramPlan.{ProgramPlan};
ghost use Rattle.object_form.specs.declared.object.Object.{Object};
ghost use Rattle.obj_link.specs.Joining.{results_of};
ghost use Rattle.module_object.specs.Objects.{IsObjectOfTexts};
ghost use Rattle.object_laws.specs.Objects.{AreObjectsOfTexts};

use module_object::image_words::{
    lowerings_have_one_image, texts_are_read_once, texts_have_one_lowering,
};
use moved_flows::starts_have_alike_flows;

/// By choices with the same policy, builder and number of registers texts have one object. This and what follows are shown by the laws
/// below, which are cited as calls that do nothing.
pub fn texts_have_one_object()
    ensures { (a b : Choice) (texts : List (List ℕ)) (one other : Object) → a.policy ≡ b.policy → a.builder ≡ b.builder → a.regs ≡ b.regs
        → IsObjectOfTexts a texts one → IsObjectOfTexts b texts other → one ≡ other }
{
    texts_have_one_lowering();
}

/// The results of the objects of texts, one object's behind the other's, are the results of the program that the texts are, those of
/// all procedures one behind the other.
pub fn objects_have_whole_results()
    ensures { (a b : Choice) (texts : List (List ℕ)) (objects : List Object) (p : Program) (cuts : List Cut)
        → a.policy ≡ b.policy → a.builder ≡ b.builder → a.regs ≡ b.regs
        → AreObjectsOfTexts a texts objects → IsProgramOfTexts texts p → well_formed p ≡ true → AreCutsOf b (lowered p) cuts
        → results_of objects ≡ joined (map (λ c. c.outs) cuts) }
{
    texts_are_read_once();
    starts_have_alike_flows();
}

/// Where the texts have an image by such a choice, these results have the verdict `Sound` on a plan of the texts, the image that is
/// linked from them is that image, and its code isn't too long.
pub fn objects_link_as_built()
    ensures pass { (a b : Choice) (texts : List (List ℕ)) (objects : List Object) (made : Compiled) (plan : ProgramPlan) (lives : List (ℕ → ℕ → Bool))
        → a.policy ≡ b.policy → a.builder ≡ b.builder → a.regs ≡ b.regs → AreObjectsOfTexts a texts objects → IsImageOfTexts b texts made
        → IsPlanOfTexts b.builder texts plan → AreLive plan.flows.items lives → verdict_on b.regs plan lives (results_of objects) ≡ Sound }
    ensures image { (a b : Choice) (texts : List (List ℕ)) (objects : List Object) (made : Compiled) (p : Program) (image : Image)
        → a.policy ≡ b.policy → a.builder ≡ b.builder → a.regs ≡ b.regs → AreObjectsOfTexts a texts objects → IsImageOfTexts b texts made
        → IsProgramOfTexts texts p → well_formed p ≡ true → IsImageOfResults b.builder b.regs p (results_of objects) image → image ≡ made.image }
    ensures code { (a b : Choice) (texts : List (List ℕ)) (objects : List Object) (made : Compiled) (plan : ProgramPlan)
        → a.policy ≡ b.policy → a.builder ≡ b.builder → a.regs ≡ b.regs → AreObjectsOfTexts a texts objects → IsImageOfTexts b texts made
        → IsPlanOfTexts b.builder texts plan
        → code_length (cuts_of plan.flows.items (map (λ v. v.items) plan.cuts.items) (results_of objects)) ≤ 262144 }
{
    objects_have_whole_results();
    texts_have_one_lowering();
    lowerings_have_one_image();
}
