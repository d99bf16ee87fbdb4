//! Laws of well-formed programs.

ghost use Rattle.std.specs.Prelude.{◌≡◌, ℕ, List, true, nat_lt};
ghost use Rattle.ob_types.specs.Table.{Table};
ghost use Rattle.ob_types.specs.Meaning.{meaning};
ghost use Rattle.ob_types.specs.Forms.{all, types_fine};
ghost use Rattle.ob_types.specs.WellFormed.{well_formed};
ghost use Rattle.ob_types.specs.Ranks.{Ranks};
ghost use Rattle.ob_types.specs.Sense.{MakesSense};
ghost use Rattle.ob_types.specs.declared.program.Program.{Program};

/// A well-formed program makes sense, on every input of bytes, with any number of turns.
pub fn makes_sense()
    ensures { (p : Program) (input : List ℕ) (n : ℕ) → well_formed p ≡ true → all (λ x. nat_lt x 256) input ≡ true → MakesSense (meaning p input n) }
{}

/// A table in which each type comes behind its parts is fine.
pub fn ranked_is_fine()
    ensures { (t : Table) → Ranks t → types_fine t ≡ true }
{}
