//! The forms of the first modules, and of all.

ghost use Rattle.std.specs.Prelude.{◌≡◌, ◌++◌, List, true};
ghost use Rattle.ob_types.specs.WellFormed.{well_formed};
ghost use Rattle.ob_types.specs.declared.program.Program.{Program};
ghost use Rattle.ob_judge.specs.Modules.{Parsed};
ghost use Rattle.judged_programs.specs.ProgramOf.{IsProgramOf};
ghost use Rattle.judged_tree.specs.Plain.{plain_program};
ghost use Rattle.one_lowering.specs.Forms.{HasClosedTypes, numbered};
ghost use Rattle.one_lowering.specs.Order.{UsesInOrder};
ghost use Rattle.moved_lowering.specs.Starts.{HasStart};

/// The form of a well-formed program that the judgement gives of some modules is the start of the form of one that it gives of these
/// and of more, where the uses of strings are in order and each array has elements of some type.
pub fn starts_have_forms()
    ensures { (ms ns : List Parsed) (p q : Program) (x : IsProgramOf ms p) (y : IsProgramOf (ms ++ ns) q)
        → well_formed p ≡ true → well_formed q ≡ true → UsesInOrder p → UsesInOrder q
        → HasClosedTypes (plain_program x.sources (numbered p)) → HasClosedTypes (plain_program y.sources (numbered q)) → HasStart p q }
{}
