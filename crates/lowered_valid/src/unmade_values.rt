//! What runs of valid procedures don't depend on: a value that isn't made yet is never read.
//!
//! The system of `block_runs` has 0 in each value of a new call that isn't an argument word. `specs/Contents.antt` has the same
//! system with any contents there, and says which states differ in nothing that is wanted. Valid procedures do the same in
//! both, step by step and over whole runs.

ghost use Rattle.std.specs.Prelude.{ℕ, List, All};
ghost use Rattle.block_runs.specs.States.{State};
ghost use Rattle.ssa_core.specs.declared.procedure.Proc.{Proc};
ghost use Rattle.ssa_core.specs.Procedures.{procedures};
ghost use Rattle.ssa_core.specs.Validity.{IsValid};
ghost use Rattle.lowered_valid.specs.Contents.{IsBare, SameRuns, SameSteps};

/// Whatever the values of a call contain before they are made, valid procedures do the same: runs of any number of steps
/// write the same and end alike, and each step is taken at the same point, with the same writing or the same trap, from
/// states that differ in nothing that is wanted to such states. No module's body takes argument words.
pub fn unmade_values_never_matter()
    ensures runs { (ps : List Proc) (code : ℕ → ℕ) (contents : State → ℕ → ℕ) → All IsValid ps → All IsBare ps → SameRuns contents (procedures ps) code }
    ensures carries { (ps : List Proc) (code : ℕ → ℕ) (contents : State → ℕ → ℕ) → All IsValid ps → All IsBare ps → SameSteps contents (procedures ps) code }
{}
