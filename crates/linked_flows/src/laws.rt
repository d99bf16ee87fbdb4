//! The law that the layers above cite.

ghost use Rattle.std.specs.Prelude.{ℕ, ◌<◌, ◌≤◌, ◌^◌, List, get_or};
ghost use Rattle.placed_code.specs.declared.data.ImageData.{ImageData};
ghost use Rattle.placed_code.specs.Results.{IsImageOf, Agrees};
ghost use Rattle.linked_flows.specs.Allocations.{Cut, steps_of, all_allocated, AreReady};

/// The machine that runs the image of flows with sound results is in step with each meaning that the flows keep up with.
pub fn flows_run()
    ensures agrees { (k frame : ℕ) (cuts : List Cut) (extra : ImageData) (input : List ℕ) → k ≤ 16 → AreReady k frame cuts
        → IsImageOf steps_of (all_allocated cuts) extra frame → ((i : ℕ) → get_or input i 0 < 2 ^ 64)
        → Agrees steps_of (all_allocated cuts) extra frame input }
{}
