//! The law of one image.

ghost use Rattle.std.specs.Prelude.{◌≡◌, List};
ghost use Rattle.image_form.specs.declared.image.Image.{Image};
ghost use Rattle.ob_types.specs.declared.program.Program.{Program};
ghost use Rattle.source_image.specs.alloc_choice.declared.choice.Choice.{Choice};
ghost use Rattle.linked_flows.specs.Allocations.{Cut};
ghost use Rattle.source_image.specs.program_image.Images.{IsProgramImage};

/// By choices with the same policy, builder and number of registers the definitions give a program one image, and one list of
/// flows in traces with results behind it: how many workers there are changes neither.
pub fn programs_have_one_image()
    ensures { (a b : Choice) (p : Program) (cuts others : List Cut) (image another : Image)
        → a.policy ≡ b.policy → a.builder ≡ b.builder → a.regs ≡ b.regs
        → IsProgramImage a p cuts image → IsProgramImage b p others another
        → (cuts ≡ others) × (image ≡ another) }
{}
