//! The laws of layouts and of the relation between objects and bytes.

ghost use Rattle.std.specs.Prelude.{◌≡◌, ◌≢◌, ◌⊎◌, List, ℕ, ◌+◌, ◌*◌, ◌<◌, ◌≤◌, ◌^◌, length, Bool, true, false, Option, Some, None};
ghost use Rattle.a64_memory.specs.Memory.{Area, covers, bytes_at, with_bytes, loaded1};
ghost use Rattle.ob_types.specs.Trees.{DataTree, Array, Record, FieldRow, Field, Extend, tree_cells, row_cells, round_up, wide, tree_bytes, row_end};
ghost use Rattle.object_bytes.specs.Layouts.{Spot, Form, Body, body, Fine, Part, Rising, row_form, form};
ghost use Rattle.object_bytes.specs.Objects.{Cell, Number, Objects, Placing, Kept, Spare, Means, load, limit, store, write, create, copied, with_new, without};

/// In both widths: the scalars of a type lie within its bytes, each apart from the others; an element is a part of its
/// array, a field of its record, a base of its extension, each with the cells and the bytes of its own type.
pub fn layouts_fit()
    ensures fine { (packed : Bool) (t : DataTree) → Fine (body (form packed t)) }
    ensures element { (packed : Bool) (n i : ℕ) (t : DataTree) → i < n → Part (body (form packed (Array n t))) (i * tree_cells t) (i * tree_bytes packed t) (form packed t) }
    ensures field { (packed : Bool) (r : FieldRow) (t : DataTree)
        → Part (body (row_form packed (Field r t))) (row_cells r) (round_up (wide packed t) (row_end packed r)) (form packed t) }
    ensures behind { (packed : Bool) (r : FieldRow) (t : DataTree) (c o : ℕ) (f : Form) → Part (body (row_form packed r)) c o f
        → Part (body (row_form packed (Field r t))) c o f }
    ensures base { (packed : Bool) (r : FieldRow) → Part (body (row_form packed (Extend r))) 0 0 (form packed (Record r)) }
{}

/// A store of a cell's number at its address goes on holding the objects, with that cell written.
pub fn stores_keep()
    ensures { (o : Objects) (p : Placing) (m : List Area) (k a c : ℕ) (s : Spot) (v : Cell) (x : ℕ) → Kept o p m → p.place k ≡ Some a
        → (o.form k).spot c ≡ Some s → Means p v x → x < limit s.small → Kept (write k c v o) p (store s.small m (a + s.at) x) }
{}

/// An object comes to be held where spare memory already has its cells' numbers.
pub fn new_objects_keep()
    ensures { (o : Objects) (k : ℕ) (f : Body) (cells : ℕ → Cell) (named : Bool) (a : ℕ) (p : Placing) (m : List Area) → Kept o p m
        → p.place k ≡ None → p.heap k ≡ None → Spare o p m a f.bytes → 0 < a → Fine f
        → ((c : ℕ) (s : Spot) → f.spot c ≡ Some s → Means (with_new named k a p) (cells c) (load s.small m (a + s.at)))
        → Kept (create k f cells o) (with_new named k a p) m }
{}

/// An object that no pointer names may go: the others are held as before, and its bytes are spare again, with what was
/// spare behind them.
pub fn returns_keep()
    ensures others { (o : Objects) (p : Placing) (m : List Area) (k : ℕ) → Kept o p m → p.heap k ≡ None → Kept o (without k p) m }
    ensures room { (o : Objects) (p : Placing) (m : List Area) (k a n : ℕ) → Kept o p m → p.place k ≡ Some a
        → Spare o p m (a + (o.form k).bytes) n → covers m a ((o.form k).bytes + n) ≡ true
        → Spare o (without k p) m a ((o.form k).bytes + n) }
{}

/// The bytes of one part of an object, written over those of a part of the same form, copy its cells.
pub fn copies_keep()
    ensures { (o : Objects) (p : Placing) (m : List Area) (f : Form) (k b d u j a c w : ℕ) → Kept o p m → Rising 0 f.spots f.bytes
        → p.place k ≡ Some b → Part (o.form k) d u f → p.place j ≡ Some a → Part (o.form j) c w f
        → Kept (copied k d j c (length f.spots) o) p (with_bytes m (b + u) (bytes_at m (a + w) f.bytes)) }
{}

/// The byte at a character's address is the character, in both widths.
pub fn texts_are_read()
    ensures { (o : Objects) (p : Placing) (m : List Area) (k a c : ℕ) (s : Spot) (x : ℕ) → Kept o p m → p.place k ≡ Some a
        → (o.form k).spot c ≡ Some s → o.cell k c ≡ Number x → x < 2 ^ 8 → loaded1 m (a + s.at) ≡ x }
{}

/// Two objects that pointers may name have different addresses, unless one of them has no byte.
pub fn pointers_are_objects()
    ensures { (o : Objects) (p : Placing) (m : List Area) (i j x : ℕ) → Kept o p m → p.heap i ≡ Some x → p.heap j ≡ Some x
        → 0 < (o.form i).bytes → 0 < (o.form j).bytes → i ≡ j }
{}
