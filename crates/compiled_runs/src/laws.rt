//! The law of whole programs.

ghost use Rattle.std.specs.Prelude.{ℕ, List};
ghost use Rattle.image_form.specs.declared.image.Image.{Image};
ghost use Rattle.ob_types.specs.declared.program.Program.{Program};
ghost use Rattle.ssa_lowered.specs.Data.{layout};
ghost use Rattle.lowered_valid.specs.Claims.{CanBeLowered};
ghost use Rattle.linked_flows.specs.Allocations.{Cut};
ghost use Rattle.link_plan.specs.Linked.{Runs};
ghost use Rattle.compiled_runs.specs.Compiled.{data_of, IsImageOf, CanRunAnywhere, Means};

/// An image of a well-formed program within the limits of lowering, which runs as its flows do whichever sound results their traces
/// have, is in step with the program's meaning on the input: (n + 1) * L steps are enough for n turns where the code has L words,
/// 8 * m + 8 turns for m steps, and both end, trap and write alike, in both directions. Where they trap, the image's places tell the
/// procedure.
pub fn images_mean()
    ensures { (p : Program) (cuts : List Cut) (image : Image) (input : List ℕ)
        → IsImageOf p cuts image → Runs image cuts (data_of p) input
        → CanBeLowered (layout p.types) p → CanRunAnywhere p input → Means p cuts image input }
{}
