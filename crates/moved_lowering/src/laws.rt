//! The lowering of a start.

ghost use Rattle.std.specs.Prelude.{◌≡◌, true};
ghost use Rattle.ob_types.specs.WellFormed.{well_formed};
ghost use Rattle.ob_types.specs.declared.program.Program.{Program};
ghost use Rattle.ssa_lowered.specs.Lowered.{lowered};
ghost use Rattle.moved_lowering.specs.Starts.{HasStart, AreAlikeFirst};

/// Where the form of a well-formed program is the start of another's, its lowered procedures are the first ones of the other's but
/// for the places of data.
pub fn starts_lower_alike()
    ensures { (p q : Program) → well_formed p ≡ true → well_formed q ≡ true → HasStart p q → AreAlikeFirst (lowered p) (lowered q) }
{}
