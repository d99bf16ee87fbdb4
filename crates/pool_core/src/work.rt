//! What a pool works on.

ghost use Rattle.std.specs.Prelude.{◌≡◌, ℕ, ◌<◌, List, length, Option, Some, IfOk};
ghost use mathlib.Core.Option.{some};
ghost use lib.ListN.{get_elem?};
ghost use Rattle.pool_core.specs.Fits.{FitsRun};

use outside::Memory;
use std::alloc::Global;

/// A tree of traces, numbered from 0, each of which has a final result. `run` finds it: of a trace without a parent
/// from the trace alone, and of each other with the hint that the final result of its parent gives.
pub trait Work: Sync {
    /// A final result.
    type Done: Send + Sync + Drop;

    /// What a trace is told of its parent's result.
    type Hint: Send + Sync + Drop;

    /// The parent of each trace.
    ghost parents: { Self → List (Option ℕ) };

    /// The final result of a trace.
    ghost is_final: { Self → ℕ → Self.Done → Type 0 };

    /// The hint that the final result of a trace's parent gives to the trace.
    ghost is_hint: { Self → ℕ → Self.Hint → Type 0 };

    /// How many traces there are.
    fn count(&self) -> u32
        ensures { result ≡ length (parents self.now) };

    /// The parent of a trace.
    fn parent(&self, trace: u32) -> Option<u32>
        requires { trace < length (parents self.now) }
        ensures { get_elem? (parents self.now) trace ≡ some result };

    /// The number with which a worker passes the gate before it runs the trace.
    fn gate_number(&self, trace: u32) -> u32
        requires { trace < length (parents self.now) };

    /// The final result of a trace, which runs with its hint, or without one where it has no parent.
    fn run<'a>(
        &'a self,
        alloc: Global,
        trace: u32,
        hint: Option<&'a Self::Hint>,
    ) -> Result<Self::Done, Memory>
        requires { FitsRun (parents self.now) (λ h. is_hint self.now trace h.now) trace hint }
        ensures { IfOk result (is_final self.now trace) };

    /// The hint for a child of the trace with this final result.
    fn hint(&self, alloc: Global, done: &Self::Done, child: u32) -> Result<Self::Hint, Memory>
        requires { (p : ℕ) × (get_elem? (parents self.now) child ≡ some (Some p)) × is_final self.now p done.now }
        ensures { IfOk result (is_hint self.now child) };
}
