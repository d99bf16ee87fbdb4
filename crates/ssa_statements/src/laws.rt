//! How statements with blocks of their own are put together, whatever their conditions and their parts are.

ghost use Rattle.std.specs.Prelude.{ℕ, List, Option, suc};
ghost use Rattle.block_runs.specs.declared.end.End.{End};
ghost use Rattle.ssa_lowered.specs.Pieces.{Mask};
ghost use Rattle.ssa_lowered.specs.Statements.{Deed};
ghost use Rattle.ssa_lowered.specs.Control.{Test, Round, Rung};
ghost use Rattle.ssa_exprs.specs.Making.{View};
ghost use Rattle.ssa_statements.specs.Cases.{MakesCase};
ghost use Rattle.ssa_statements.specs.Parts.{MakesChoice, MakesGuard, MakesLoop, MakesRepeat};

/// A condition, what is done where it holds, what is done otherwise, and the join of the two.
pub fn choices_are_made()
    ensures { (v u u2 u5 : View) (t : Test) (f g : Deed) (mask : Mask) (args1 args2 : List ℕ) → MakesChoice v u u2 u5 t f g mask args1 args2 }
{}

/// A guard of a loop and what is done where it holds, before the guards behind it.
pub fn guards_are_made()
    ensures { (v u u2 w : View) (t : Test) (f : Deed) (mask : Mask) (head outside next : ℕ) (args : List ℕ) (rs : List Round)
        → MakesGuard v u u2 w t f mask head outside next args rs }
{}

/// The header of a loop, and its guards.
pub fn loops_are_made()
    ensures { (v w : View) (mask : Mask) (args : List ℕ) (rs : List Round) → MakesLoop v w mask args rs }
{}

/// REPEAT.
pub fn repeats_are_made()
    ensures { (v u3 u4 : View) (t : Test) (body : Deed) (mask : Mask) (args1 args2 : List ℕ) → MakesRepeat v u3 u4 t body mask args1 args2 }
{}

/// CASE, from its tests and its parts.
pub fn cases_are_made()
    ensures { (v u w : View) (mask : Mask) (rungs : List Rung) (bodies : List Deed) (unmatched : ℕ → List ℕ → End)
        (leave by : Option (List ℕ)) → MakesCase v u w mask rungs bodies unmatched leave by }
{}
