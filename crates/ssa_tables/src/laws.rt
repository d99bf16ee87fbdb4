//! What well-formed programs give.

ghost use Rattle.std.specs.Prelude.{◌≡◌, true};
ghost use Rattle.ob_types.specs.WellFormed.{well_formed};
ghost use Rattle.ob_types.specs.declared.program.Program.{Program};
ghost use Rattle.ssa_tables.specs.Measured.{IsMeasured};

/// A well-formed program has sizes that lowering takes.
pub fn well_formed_is_measured()
    ensures { (p : Program) → well_formed p ≡ true → IsMeasured p }
{}
