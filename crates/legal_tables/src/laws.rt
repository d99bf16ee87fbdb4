//! Tables that are built are legal and stay so, and programs over them are well-formed.

ghost use Rattle.std.specs.Prelude.{◌≡◌, [], ◌∷◌, ◌++◌, ℕ, List, Some, map, nat_le, pos, slice_get, slice_set, true};
ghost use Rattle.ob_types.specs.WellFormed.{well_formed};
ghost use Rattle.ob_types.specs.declared.program.Program.{Program};
ghost use Rattle.ob_types.specs.declared.types.Signature.{Signature};
ghost use Rattle.ob_judge.specs.Making.{no_layout};
ghost use Rattle.ob_judge.specs.Modules.{Parsed};
ghost use Rattle.ob_judge.specs.Parameters.{Listed};
ghost use Rattle.ob_judge.specs.Shapes.{Array, Known, Layout, Shape, cells};
ghost use Rattle.ob_judge.specs.Types.{is_length, limit};
ghost use Rattle.judged_tree.specs.Plain.{plain_formal};
ghost use Rattle.judged_tree.specs.TypeShapes.{shape_of};
ghost use Rattle.judged_well.specs.Standing.{is_result};
ghost use Rattle.judged_programs.specs.Complete.{CompleteStay, IsKnown};
ghost use Rattle.judged_programs.specs.LegalTable.{IsLegalTable};
ghost use Rattle.judged_programs.specs.ProgramOf.{AreRead, HasResults, IsProgramOf};
ghost use Rattle.judged_programs.specs.Tidy.{AreListed};
ghost use Rattle.check_types.specs.Known.{known_of};
ghost use Rattle.check_types.specs.TypeMeaning.{type_shape};
ghost use Rattle.check_types.specs.declared.table.TypeTable.{TypeTable};
ghost use Rattle.check_types.specs.declared.types.TypeRef.{TypeRef};
ghost use Rattle.table_builder.specs.Builder.{IsBuilt};
ghost use Rattle.table_builder.specs.Growing.{AddsOnly, Grows};
ghost use Rattle.table_builder.specs.Index.{basic_types};
ghost use Rattle.table_builder.specs.declared.builder.TableBuilder.{TableBuilder};
ghost use Rattle.legal_tables.specs.Promised.{HasLegalParts, HasLegalTypes, IsLegalArray, IsLegalShape};

/// A table that is built, and whose arrays and procedure types are legal, is a legal table.
pub fn built_tables_are_legal()
    ensures { (b : TableBuilder) → IsBuilt b → HasLegalTypes b.table → IsLegalTable b.table.types }
{}

/// A table of basic types has legal types.
pub fn first_types_are_legal()
    ensures { (b : TableBuilder) → b.table.entries.items ≡ basic_types → b.table.types.signatures ≡ [] → HasLegalTypes b.table }
{}

/// Types stay legal where at most one is added, which is legal, and complete record types stay.
pub fn types_stay_legal()
    ensures { (b c : TableBuilder) → IsBuilt b → IsBuilt c → Grows b.table c.table
        → CompleteStay (known_of b.table).records (known_of c.table).records
        → (k : TypeRef) → AddsOnly k b.table.entries.items c.table.entries.items
        → IsLegalShape (known_of c.table) (type_shape c.table.types k)
        → c.table.types.signatures ≡ b.table.types.signatures → HasLegalTypes b.table → HasLegalTypes c.table }
{}

/// And where a procedure type is added, whose parts are legal.
pub fn procedure_types_stay_legal()
    ensures { (b c : TableBuilder) → IsBuilt b → IsBuilt c → Grows b.table c.table
        → CompleteStay (known_of b.table).records (known_of c.table).records
        → (k : TypeRef) → AddsOnly k b.table.entries.items c.table.entries.items
        → IsLegalShape (known_of c.table) (type_shape c.table.types k)
        → (x : Signature) → AddsOnly x b.table.types.signatures c.table.types.signatures → HasLegalParts c.table x
        → HasLegalTypes b.table → HasLegalTypes c.table }
{}

/// Complete record types stay when a record type is begun,
pub fn begun_records_leave_complete_ones()
    ensures { (records : List Layout) → CompleteStay records (records ++ no_layout ∷ []) }
{}

/// and when one that was begun is completed.
pub fn completed_records_leave_complete_ones()
    ensures { (records : List Layout) (n : ℕ) (l : Layout) → slice_get records n ≡ Some no_layout → CompleteStay records (slice_set records n l) }
{}

/// An array type whose length and cells the judgement accepts is legal, where the cells of its elements are known.
pub fn judged_arrays_are_legal()
    ensures { (known : Known) (n : ℕ) (a : Shape) → is_length (pos n) ≡ true → IsKnown known.records a
        → nat_le (cells known (Array n a)) limit ≡ true → IsLegalArray known n a }
{}

/// A procedure type with parameters and a result that the judgement accepts has legal parts.
pub fn judged_parameters_are_legal()
    ensures { (t : TypeTable) (x : Signature) (l : Listed) → map (plain_formal t.types) x.formals ≡ l.parameters
        → AreListed l → is_result (shape_of t.types x.result) ≡ true → HasLegalParts t x }
{}

/// So a program over such a table is well-formed, where the judgement gives it of modules whose texts were read.
pub fn built_programs_are_well_formed()
    ensures { (b : TableBuilder) (ms : List Parsed) (p : Program) → IsBuilt b → HasLegalTypes b.table → p.types ≡ b.table.types
        → AreRead ms → IsProgramOf ms p → HasResults p → well_formed p ≡ true }
{}
