//! Laws of lowering, for every program.

ghost use Rattle.std.specs.Prelude.{◌≡◌, ℕ, ◌+◌, ◌*◌, ◌/◌, ◌%◌, ◌<◌, ◌≤◌, Bool, Some, false, slice_get, true};
ghost use Rattle.block_runs.specs.declared.end.End.TheVariants.{Return};
ghost use Rattle.ob_types.specs.Forms.{Form, scalar_form, types_fine};
ghost use Rattle.ob_types.specs.Layout.{cells, kind_of, record_of, types_of};
ghost use Rattle.ob_types.specs.Table.{Table};
ghost use Rattle.ob_types.specs.Trees.{scalar_bytes};
ghost use Rattle.ob_types.specs.declared.program.Procedure.{Procedure};
ghost use Rattle.ob_types.specs.declared.program.Program.{Program};
ghost use Rattle.ob_types.specs.declared.types.TypeKind.TheVariants.{Array as ArrayOf, Record as RecordOf};
ghost use Rattle.ssa_core.specs.Procedures.{code_blocks};
ghost use Rattle.ssa_lowered.specs.Data.{IsLayout, Layout, in_cells, packed, rounded};
ghost use Rattle.ssa_lowered.specs.Places.{Leaves, Stand};
ghost use Rattle.ssa_lowered.specs.Lowered.{made_of, proc_of};

/// Each piece of a procedure stands at its place, and behind the last piece stands the return.
pub fn pieces_stand()
    ensures pieces { (p : Program) (l : Layout) (f : ℕ) (q : Procedure) → Stand (code_blocks (proc_of p l f q).blocks) (made_of p l f q).pieces }
    ensures end { (p : Program) (l : Layout) (f : ℕ) (q : Procedure)
        → Leaves (code_blocks (proc_of p l f q).blocks) (made_of p l f q).after.block (made_of p l f q).after.op
        (Return (made_of p l f q).result) }
{}

/// Both layouts are by the trees of types.
pub fn layouts_are_by_trees()
    ensures cells { (t : Table) → IsLayout false t (in_cells t) }
    ensures packed { (t : Table) → IsLayout true t (packed t) }
{}

/// In each layout by the trees of types: a scalar takes a byte or eight, by its width; an array takes its element's bytes as often as it is
/// long, and a type of records what its record takes.
pub fn types_take_their_parts()
    ensures scalar { (w : Bool) (t : Table) (l : Layout) → IsLayout w t l → types_fine t ≡ true → (k : ℕ) (f : Form) → scalar_form (kind_of t k) ≡ Some f
        → l.bytes k ≡ scalar_bytes (l.is_small (kind_of t k)) }
    ensures array { (w : Bool) (t : Table) (l : Layout) → IsLayout w t l → types_fine t ≡ true → (k n e : ℕ) → kind_of t k ≡ ArrayOf (Some n) e → l.bytes k ≡ n * l.bytes e }
    ensures whole { (w : Bool) (t : Table) (l : Layout) → IsLayout w t l → types_fine t ≡ true → (k r : ℕ) → kind_of t k ≡ RecordOf r → l.bytes k ≡ l.record_bytes r }
{}

/// A field lies within the bytes of its record, before the fields behind it, and behind the bytes of the base, whatever extends the record.
pub fn fields_lie_apart()
    ensures within { (w : Bool) (t : Table) (l : Layout) → IsLayout w t l → types_fine t ≡ true → (r n k : ℕ) → slice_get (types_of (record_of t r).fields) n ≡ Some k
        → l.offset r n + l.bytes k ≤ l.record_bytes r }
    ensures before { (w : Bool) (t : Table) (l : Layout) → IsLayout w t l → (r n m k : ℕ) → n < m → slice_get (types_of (record_of t r).fields) n ≡ Some k
        → l.offset r n + l.bytes k ≤ l.offset r m }
    ensures behind { (w : Bool) (t : Table) (l : Layout) → IsLayout w t l → (r b n : ℕ) → (record_of t r).base ≡ Some b → l.record_bytes b ≤ l.offset r n }
{}

/// A cell takes eight bytes at most, also where a variable's bytes are rounded up; and there are no more words and single bytes than cells.
pub fn cells_take_few_bytes()
    ensures few { (w : Bool) (t : Table) (l : Layout) → IsLayout w t l → (k : ℕ) → l.bytes k ≤ 8 * cells t k }
    ensures whole { (w : Bool) (t : Table) (l : Layout) → IsLayout w t l → (k : ℕ) → rounded (l.bytes k) ≤ 8 * cells t k }
    ensures moved { (w : Bool) (t : Table) (l : Layout) → IsLayout w t l → (k : ℕ) → l.bytes k / 8 + l.bytes k % 8 ≤ cells t k }
{}
