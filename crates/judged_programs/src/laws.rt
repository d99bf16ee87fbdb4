//! Programs of any number of modules that the judgement accepts are well-formed, part by part.

ghost use Rattle.std.specs.Prelude.{◌≡◌, List, length, nat_lt, true};
ghost use Rattle.ob_types.specs.Forms.{all, all_below, types_fine};
ghost use Rattle.ob_types.specs.LegalTypes.{types_legal};
ghost use Rattle.ob_types.specs.Meaning.{texts_of};
ghost use Rattle.ob_types.specs.WellFormed.{
  bodies_in_order,
  counts_fine,
  module_fine,
  procedure_fine,
  variables_fine,
  well_formed,
};
ghost use Rattle.ob_types.specs.declared.program.Program.{Program};
ghost use Rattle.ob_judge.specs.Modules.{Parsed};
ghost use Rattle.judged_well.specs.OfProgram.{IsFaithful, IsInside};
ghost use Rattle.judged_programs.specs.LegalTable.{IsLegalTable};
ghost use Rattle.judged_programs.specs.ProgramOf.{AreRead, HasResults, IsProgramOf};

/// The bodies of the modules stand among the procedures in the order of the modules, and no other procedure is marked as one.
pub fn bodies_are_in_order()
    ensures { (ms : List Parsed) (p : Program) → IsProgramOf ms p → bodies_in_order p ≡ true }
{}

/// The table of types means what the judgement knows of types: the judgement tells the rest of what a legal table is.
pub fn tables_are_faithful()
    ensures { (ms : List Parsed) (p : Program) → IsProgramOf ms p → IsLegalTable p.types → IsFaithful p.types }
{}

/// Variables, parameters and results are of types of the table.
pub fn programs_are_inside()
    ensures { (ms : List Parsed) (p : Program) → IsProgramOf ms p → IsLegalTable p.types → HasResults p → IsInside p }
{}

/// A module's body is marked as one, and has no parameters, no variables and no result.
pub fn module_bodies_are_bare()
    ensures { (ms : List Parsed) (p : Program) → IsProgramOf ms p → IsLegalTable p.types
        → all (module_fine p) p.modules ≡ true }
{}

/// Variables are of types that variables may have, and results of those that results may have.
pub fn variables_are_fine()
    ensures { (ms : List Parsed) (p : Program) → IsProgramOf ms p → IsLegalTable p.types → HasResults p
        → variables_fine p ≡ true }
{}

/// No type is nested in itself, and no record type is its own base.
pub fn types_are_fine()
    ensures { (ms : List Parsed) (p : Program) → IsProgramOf ms p → IsLegalTable p.types → types_fine p.types ≡ true }
{}

/// Record types have the levels and cells that they say, and no parameters take more argument words than are passed.
pub fn counts_are_fine()
    ensures { (ms : List Parsed) (p : Program) → IsProgramOf ms p → IsLegalTable p.types → counts_fine p ≡ true }
{}

/// The table of types is one that the language allows.
pub fn types_are_legal()
    ensures { (ms : List Parsed) (p : Program) → IsProgramOf ms p → IsLegalTable p.types → types_legal p.types ≡ true }
{}

/// Each procedure and each module's body is well-formed, for any number of modules whose texts were read.
pub fn procedures_are_fine()
    ensures { (ms : List Parsed) (p : Program) → AreRead ms → IsProgramOf ms p → IsLegalTable p.types → HasResults p
        → all_below (length p.procedures) (procedure_fine p) ≡ true }
{}

/// And the strings that they use as arrays are bytes.
pub fn strings_are_bytes()
    ensures { (ms : List Parsed) (p : Program) → AreRead ms → IsProgramOf ms p → IsLegalTable p.types → HasResults p
        → all (all (λ c. nat_lt c 256)) (texts_of p.procedures) ≡ true }
{}

/// A program that the judgement gives of modules whose texts were read, as code holds it, is well-formed.
pub fn legal_programs_are_well_formed()
    ensures { (ms : List Parsed) (p : Program) → AreRead ms → IsProgramOf ms p → IsLegalTable p.types → HasResults p
        → well_formed p ≡ true }
{}
