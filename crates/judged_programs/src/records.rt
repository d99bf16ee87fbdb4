//! What the judgement keeps inside types: record types that are begun, their fields, and record types that are completed;
//! pointer types.

ghost use Rattle.std.specs.Prelude.{◌≡◌, ◌<◌, ◌≤◌, ◌∷◌, [], ℕ, List, Option, Some, length, slice_get};
ghost use Rattle.ob_types.specs.Trees.{rounded_extent};
ghost use Rattle.ob_syntax.specs.Syntax.{MaybeFields, NextFields};
ghost use Rattle.ob_syntax.specs.declared.types.Base.{Base};
ghost use Rattle.ob_judge.specs.Judged.{Keeps};
ghost use Rattle.ob_judge.specs.Making.{Making, new_pointer, new_record, no_layout, set_base, set_record};
ghost use Rattle.ob_judge.specs.Scopes.{Source};
ghost use Rattle.ob_judge.specs.Shapes.{Layout};
ghost use Rattle.ob_judge.specs.Types.{base_layout, fields_part, limit, more_part};
ghost use Rattle.judged_modules.specs.Agrees.{records_of};
ghost use Rattle.judged_programs.specs.Ranked.{IsAdding, IsBase};
ghost use Rattle.judged_programs.specs.Tidy.{Tidy};

/// A record type that is begun leaves all tidy.
pub fn begun_records_stay_tidy()
    ensures { (from : ℕ) (s t : Making) (n : ℕ) → new_record s ≡ Keeps (n, t) → Tidy from s → Tidy from t }
{}

/// The base of a record type is complete, or there is none.
pub fn bases_are_complete()
    ensures { (from : ℕ) (p : Source) (b : Option Base) (s : Making) (l : Layout) → base_layout p b s.world ≡ Keeps l
        → Tidy from s → IsBase (records_of s) l }
{}

/// Fields leave all tidy, and are of types of which all cells are known.
pub fn fields_stay_tidy()
    ensures { (from : ℕ) (p : Source) (n : ℕ) (x : MaybeFields) (b g h : Layout) (s t : Making) → fields_part p n x g s ≡ Keeps (h, t)
        → IsAdding (records_of s) b g → Tidy from s → Tidy from t × IsAdding (records_of t) b h }
{}

/// So do further fields.
pub fn more_fields_stay_tidy()
    ensures { (from : ℕ) (p : Source) (n : ℕ) (x : NextFields) (b g h : Layout) (s t : Making) → more_part p n x g s ≡ Keeps (h, t)
        → IsAdding (records_of s) b g → Tidy from s → Tidy from t × IsAdding (records_of t) b h }
{}

/// A record type that is completed leaves all tidy: one that was begun, with these fields behind those of its base.
pub fn completed_records_stay_tidy()
    ensures { (from : ℕ) (s t : Making) (n : ℕ) (b g l : Layout) → set_record n l s ≡ Keeps (tt, t)
        → slice_get (records_of s) n ≡ Some no_layout → IsBase (records_of s) b → IsAdding (records_of s) b g
        → l.line ≡ n ∷ g.line → l.added ≡ g.added → l.cells ≡ g.cells → l.extent ≡ rounded_extent g.extent → l.cells ≤ limit
        → Tidy from s → Tidy from t }
{}

/// A pointer type leaves all tidy,
pub fn begun_pointers_stay_tidy()
    ensures { (from : ℕ) (s t : Making) (n : ℕ) → new_pointer s ≡ Keeps (n, t) → Tidy from s → Tidy from t }
{}

/// and so does what it points to.
pub fn pointers_stay_tidy()
    ensures { (from : ℕ) (s t : Making) (n r : ℕ) → set_base n r s ≡ Keeps (tt, t) → r < length (records_of s) → Tidy from s → Tidy from t }
{}
