//! The law that the layers above cite.

ghost use Rattle.std.specs.Prelude.{ℕ, ◌<◌, ◌≤◌, ◌^◌, List, get_or};
ghost use Rattle.lir_core.specs.declared.places.Move.{Move};
ghost use Rattle.placed_code.specs.declared.data.ImageData.{ImageData};
ghost use Rattle.placed_code.specs.Placed.{Copy};
ghost use Rattle.placed_code.specs.Results.{Allocated, IsSequence, AreSoundResults, IsImageOf, Agrees};

/// The machine that runs the image of sound results is in step with each meaning that their flows keep up with.
pub fn images_agree()
    ensures agrees { (k frame : ℕ) (steps : List Move → List Copy) (rs : List Allocated) (extra : ImageData) (input : List ℕ)
        → k ≤ 16 → IsSequence steps → AreSoundResults k frame steps rs → IsImageOf steps rs extra frame
        → ((i : ℕ) → get_or input i 0 < 2 ^ 64) → Agrees steps rs extra frame input }
{}
