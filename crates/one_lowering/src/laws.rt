//! The laws of one lowering.

ghost use Rattle.std.specs.Prelude.{◌≡◌, ℕ, List, true};
ghost use Rattle.ob_types.specs.Layout.{cells};
ghost use Rattle.ob_types.specs.WellFormed.{well_formed};
ghost use Rattle.ob_types.specs.declared.program.Program.{Program};
ghost use Rattle.judged_tree.specs.Plain.{plain_program};
ghost use Rattle.judged_tree.specs.TypeShapes.{shape_of};
ghost use Rattle.one_lowering.specs.Forms.{HasClosedTypes, HaveOneForm, HaveOneLowering, is_closed, numbered};
ghost use Rattle.one_lowering.specs.Order.{UsesInOrder};

/// Types of one shape have as many cells, where each array in it has elements of some type.
pub fn shapes_have_one_size()
    ensures { (p : Program) → well_formed p ≡ true
        → (a b : ℕ) → shape_of p.types a ≡ shape_of p.types b → is_closed (shape_of p.types a) ≡ true
        → cells p.types a ≡ cells p.types b }
{}

/// Programs with the same image and with uses of strings in order have one form, in which each use is told by its number.
pub fn ordered_programs_have_one_form()
    ensures { (p q : Program) (sources others : List (List ℕ)) → plain_program sources p ≡ plain_program others q
        → UsesInOrder p → UsesInOrder q → HaveOneForm p q }
{}

/// Well-formed programs of one form, in which each array has elements of some type, have one lowering: the numbers of types and
/// signatures, and whatever else the form leaves out, aren't seen in it.
pub fn forms_have_one_lowering()
    ensures { (p q : Program) → well_formed p ≡ true → well_formed q ≡ true
        → (one : HaveOneForm p q) → HasClosedTypes (plain_program one.sources (numbered p))
        → HaveOneLowering p q }
{}
