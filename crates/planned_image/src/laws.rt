//! What a choice's own results come to.

ghost use Rattle.std.specs.Prelude.{◌≡◌, ◌≤◌, ℕ, List, Bool, map};
ghost use Rattle.image_form.specs.declared.image.Image.{Image};
ghost use Rattle.ob_types.specs.declared.program.Program.{Program};
ghost use Rattle.ssa_lowered.specs.Lowered.{lowered};
ghost use Rattle.linked_flows.specs.Allocations.{Cut};
ghost use Rattle.image_words.specs.alloc_choice.declared.choice.Choice.{Choice};
ghost use Rattle.alloc_audit.specs.declared.verdict.Verdict.TheVariants.{Sound};
ghost use Rattle.alloc_audit.specs.Results.{AreLive};
ghost use Rattle.placed_image.specs.audited_allocations.Joined.{joined};
ghost use Rattle.image_words.specs.flow_allocation.Allocations.{trace_count};
ghost use Rattle.image_words.specs.back_end.Images.{AreCutsOf};
ghost use Rattle.image_words.specs.program_image.Images.{IsProgramImage};
ghost use Rattle.image_words.specs.program_image.Limits.{most_traces};
ghost use Rattle.planned_image.specs.Plans.{IsProgramPlan};
ghost use Rattle.planned_image.specs.Audits.{IsImageOfResults, verdict_on};
ghost use Rattle.planned_image.specs.declared.planning.ProgramPlan.{ProgramPlan};

/// The verdict over a choice's results for a program, those of all procedures one behind the other, is `Sound` on the program's plan
/// by the same builder.
pub fn own_results_pass()
    ensures { (choice : Choice) (p : Program) (cuts : List Cut) (plan : ProgramPlan) (lives : List (ℕ → ℕ → Bool))
        → AreCutsOf choice (lowered p) cuts → IsProgramPlan choice.builder p plan → AreLive plan.flows.items lives
        → verdict_on choice.regs plan lives (joined (map (λ c. c.outs) cuts)) ≡ Sound }
{}

/// The image that is linked from them is the program's image by this choice.
pub fn own_results_have_one_image()
    ensures { (choice : Choice) (p : Program) (cuts : List Cut) (image : Image)
        → AreCutsOf choice (lowered p) cuts → trace_count cuts ≤ most_traces
        → IsImageOfResults choice.builder choice.regs p (joined (map (λ c. c.outs) cuts)) image → IsProgramImage choice p cuts image }
{}
