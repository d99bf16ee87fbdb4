//! The law of no fault.

ghost use Rattle.std.specs.Prelude.{◌≡◌, [], ℕ, List};
ghost use Rattle.run_laws.specs.Runs.{Trapped, run};
ghost use Rattle.a64_machine.specs.Machine.{start, step_of};
ghost use Rattle.a64_machine.specs.State.{Trap};
ghost use Rattle.a64_memory.specs.Memory.{AreBytes};
ghost use Rattle.source_image.specs.alloc_choice.declared.choice.Choice.{Choice};
ghost use Rattle.source_image.specs.program_image.declared.imaging.Compiled.{Compiled};
ghost use Rattle.source_image.specs.Images.{IsImageOfTexts};
ghost use Rattle.text_laws.specs.no_faults.Faults.{IsBreak};

/// The machine that runs an image of texts, on any bytes as input and for any number of steps, comes to no fault: where it traps,
/// that is a BRK.
pub fn images_never_fault()
    ensures { (choice : Choice) (texts : List (List ℕ)) (made : Compiled) (input : List ℕ) (steps : ℕ) (trap : Trap) (out : List ℕ)
        → IsImageOfTexts choice texts made → AreBytes input
        → run (step_of made.image.code) steps (start made.image input) [] ≡ Trapped trap out → IsBreak trap }
{}
