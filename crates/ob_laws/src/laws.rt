//! The laws, said of calls and of whole programs.

ghost use Rattle.std.specs.Prelude.{◌≡◌, ◌≤◌, ◌+◌, ℕ, List, []};
ghost use Rattle.run_laws.specs.Runs.{IsOver};
ghost use Rattle.run_laws.specs.Turns.{outcome};
ghost use Rattle.ob_types.specs.Store.{Handed};
ghost use Rattle.ob_types.specs.Meaning.{at_most, bodies, start, meaning};
ghost use Rattle.ob_laws.specs.Laws.{OnlyAdds};
ghost use Rattle.ob_types.specs.declared.program.Program.{Program};

/// A call only spends turns, only adds to the output, and only adds objects; those that are there keep their sizes and
/// types, and the strings their characters. What is left of the input is an end of it.
pub fn only_adds()
    ensures { (p : Program) (fuel f : ℕ) (hs : List Handed) → OnlyAdds (at_most p fuel f hs) }
{}

/// A bound on the recursion that is at least the turns is never met.
pub fn fuel_is_free()
    ensures { (p : Program) (input : List ℕ) (n more : ℕ) → n ≤ more
        → outcome (bodies p more p.modules (record { store = start p input; out = []; turns = n })) ≡ meaning p input n }
{}

/// A meaning that is over with n turns is the same with more.
pub fn over_stays_over()
    ensures { (p : Program) (input : List ℕ) (n d : ℕ) → IsOver (meaning p input n) → meaning p input (n + d) ≡ meaning p input n }
{}
