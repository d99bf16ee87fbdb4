//! The laws that the layers above cite.

ghost use Rattle.std.specs.Prelude.{ℕ, ◌+◌, ◌≤◌};
ghost use Rattle.size_limits.specs.Limits.{most_values};
ghost use Rattle.trace_build.specs.Cuts.{lists_of, AllTraces};
ghost use Rattle.boundary_resolve.specs.Edges.{AreSound};
ghost use Rattle.placed_code.specs.Words.{slots_of};
ghost use Rattle.placed_code.specs.Results.{placed};
ghost use Rattle.linked_flows.specs.Allocations.{Cut, steps_of, allocated};
ghost use Rattle.link_blocks.specs.Fits.{most_outs};
ghost use Rattle.link_blocks.specs.Laid.{Fits};
ghost use Rattle.modest_flows.specs.Modest.{IsModest};

/// With sound results, the frame of a flow that has no more values than a procedure may have has a slot for each of these at most,
/// 20 for arguments, and the link's.
pub fn small_flows_have_small_frames()
    ensures { (k : ℕ) (c : Cut) → AreSound k c.flow c.traces c.outs → AllTraces c.flow (lists_of c.traces) → c.flow.values ≤ most_values
        → slots_of (placed steps_of (allocated c)) ≤ most_outs + (1 + most_values) }
{}

/// With sound results, whatever they are, a modest flow fits instructions: its operations' numbers by its validity, the registers
/// that are named by the results, and its frame, since each of its slots is a value's, an argument's or the link's.
pub fn modest_flows_fit()
    ensures { (k : ℕ) (c : Cut) → AreSound k c.flow c.traces c.outs → AllTraces c.flow (lists_of c.traces) → IsModest c.flow → Fits c }
{}
