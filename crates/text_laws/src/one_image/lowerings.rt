//! The law of one image of programs with the same lowering.

ghost use Rattle.std.specs.Prelude.{◌≡◌, List};
ghost use Rattle.image_form.specs.declared.image.Image.{Image};
ghost use Rattle.ob_types.specs.declared.program.Program.{Program};
ghost use Rattle.source_image.specs.alloc_choice.declared.choice.Choice.{Choice};
ghost use Rattle.linked_flows.specs.Allocations.{Cut};
ghost use Rattle.one_lowering.specs.Forms.{HaveOneLowering};
ghost use Rattle.source_image.specs.program_image.Images.{IsProgramImage};

/// By choices with the same policy, builder and number of registers programs with the same lowering have one image, and one list
/// of flows in traces with results behind it.
pub fn lowerings_have_one_image()
    ensures { (a b : Choice) (p q : Program) (cuts others : List Cut) (image another : Image)
        → a.policy ≡ b.policy → a.builder ≡ b.builder → a.regs ≡ b.regs → HaveOneLowering p q
        → IsProgramImage a p cuts image → IsProgramImage b q others another
        → (cuts ≡ others) × (image ≡ another) }
{}
