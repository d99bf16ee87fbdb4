//! The law of one meaning.

ghost use Rattle.std.specs.Prelude.{◌≡◌, ℕ, List, true};
ghost use Rattle.ob_types.specs.Meaning.{meaning};
ghost use Rattle.ob_types.specs.WellFormed.{well_formed};
ghost use Rattle.ob_types.specs.declared.program.Program.{Program};
ghost use Rattle.judged_tree.specs.Plain.{plain_program};
ghost use Rattle.one_lowering.specs.Forms.{HasClosedTypes, HaveOneForm, numbered};

/// Well-formed programs of one form, in which each array has elements of some type, come out alike on each input with each number of
/// turns: the numbers of types and signatures, and whatever else the form leaves out, aren't seen in what they do.
pub fn forms_have_one_meaning()
    ensures { (p q : Program) → well_formed p ≡ true → well_formed q ≡ true
        → (one : HaveOneForm p q) → HasClosedTypes (plain_program one.sources (numbered p))
        → (input : List ℕ) (turns : ℕ) → meaning p input turns ≡ meaning q input turns }
{}
