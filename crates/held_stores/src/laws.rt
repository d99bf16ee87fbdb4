//! The laws of stores in memory.

ghost use Rattle.std.specs.Prelude.{◌≡◌, ◌⊎◌, ◌∷◌, ◌++◌, [], ℕ, ◌+◌, ◌<◌, ◌≤◌, ◌^◌, Bool, List, Option, length, map, nat_lt, sum, sum_by, slice_get, true, false, Some};
ghost use Rattle.a64_memory.specs.Memory.{AreBytes, bytes_at, covers, with_bytes};
ghost use Rattle.a64_memory.specs.Memory.{Area as Region};
ghost use Rattle.a64_memory.specs.Areas.{data_base, heap_words, local_words};
ghost use Rattle.ob_types.specs.Forms.{Form, all};
ghost use Rattle.ob_types.specs.Meaning.{start};
ghost use Rattle.ob_types.specs.Store.{Address, Cell, Store, can_write, cell_of, objects, past};
ghost use Rattle.ob_types.specs.Trees.{DataTree, Array, Scalar, data_tree, record_row, row_cells, tree_bytes, tree_cells};
ghost use Rattle.ob_types.specs.declared.program.Program.{Program};
ghost use Rattle.object_nodes.specs.Addresses.{Sides};
ghost use Rattle.object_nodes.specs.AtOnce.{CellsThere, with_cell, with_copied};
ghost use Rattle.object_nodes.specs.Nodes.{Node, VariableNode};
ghost use Rattle.object_bytes.specs.Objects.{limit, load, store};
ghost use Rattle.ssa_lowered.specs.Constants.{address_of, ancestor};
ghost use Rattle.ssa_lowered.specs.Data.{IsLayout, Layout, globals_room};
ghost use Rattle.held_stores.specs.Places.{Active, Ground, Room, next, object_cells};
ghost use Rattle.held_stores.specs.Held.{Held, Later, StandsAt, ValueIs, takes_byte};
ghost use Rattle.held_stores.specs.First.{ConstantsAre, first_ground, first_memory, no_calls};
ghost use Rattle.held_stores.specs.Changes.{Begins, Beyond, Call, Laid, above, with_frame, with_object, without_frame};

/// A node of what stands at an address stands its bytes further on. All of it is there to be loaded and stored.
pub fn parts_stand()
    ensures node { (g : Ground) (k : Active) (tags : List ℕ) (a : Address) (t : DataTree) (x c o : ℕ) (u : DataTree) → StandsAt g k tags a t x → Node g.packed t c o u
        → StandsAt g k tags (past a c) u (x + o) }
    ensures there { (g : Ground) (k : Active) (s : Store) (m : List Region) (a : Address) (t : DataTree) (x : ℕ) → Held g k s m → StandsAt g k s.tags a t x
        → covers m x (tree_bytes g.packed t) ≡ true }
    ensures later { (g : Ground) (k : Active) (s t : Store) (frame : ℕ) (a : Address) (u : DataTree) (x : ℕ) → Later g k frame s t → StandsAt g k s.tags a u x
        → StandsAt g k t.tags a u x }
{}

/// Two parts with one tree, or two arrays whose elements have one, are one and stand at one address, or share no byte.
pub fn parts_are_one_or_apart()
    ensures same { (g : Ground) (k : Active) (tags : List ℕ) (a b : Address) (t : DataTree) (x y : ℕ) → Room g k tags → StandsAt g k tags a t x → StandsAt g k tags b t y
        → ((a ≡ b) × (x ≡ y)) ⊎ Sides x (tree_bytes g.packed t) y (tree_bytes g.packed t) }
    ensures arrays { (g : Ground) (k : Active) (tags : List ℕ) (a b : Address) (n m : ℕ) (e : DataTree) (x y : ℕ) → Room g k tags → StandsAt g k tags a (Array n e) x
        → StandsAt g k tags b (Array m e) y → ((a ≡ b) × (x ≡ y)) ⊎ Sides x (tree_bytes g.packed (Array n e)) y (tree_bytes g.packed (Array m e)) }
{}

/// What is loaded from a scalar's address, by its width, is its cell's number. A number that is stored there by that width goes on holding the
/// store, with the cell written.
pub fn scalars_are_cells()
    ensures load { (g : Ground) (k : Active) (s : Store) (m : List Region) (a : Address) (f : Form) (x : ℕ) (v : Cell) → Held g k s m → StandsAt g k s.tags a (Scalar f) x
        → cell_of (objects a.area s) a.object a.cell ≡ Some v → ValueIs g s.tags v (load (takes_byte g f) m x) }
    ensures store { (g : Ground) (k : Active) (s : Store) (m : List Region) (a : Address) (f : Form) (x : ℕ) (v old : Cell) (y : ℕ) → Held g k s m → can_write a.area ≡ true
        → cell_of (objects a.area s) a.object a.cell ≡ Some old → StandsAt g k s.tags a (Scalar f) x → ValueIs g s.tags v y → y < limit (takes_byte g f)
        → Held g k (with_cell a v s) (store (takes_byte g f) m x y) }
{}

/// The bytes of one part, written over those of another one of its tree, or over an array's first elements, copy the cells.
pub fn copies_keep()
    ensures { (g : Ground) (k : Active) (s : Store) (m : List Region) (to from : Address) (u t : DataTree) (x y : ℕ) → Held g k s m → Begins g.packed u t
        → StandsAt g k s.tags to u x → StandsAt g k s.tags from t y → can_write to.area ≡ true → CellsThere (tree_cells t) to s → CellsThere (tree_cells t) from s
        → Held g k (with_copied (tree_cells t) to from s) (with_bytes m x (bytes_at m y (tree_bytes g.packed t))) }
{}

/// Where the heap has room, memory with a tag in its first free bytes holds the store with one more object of zeros, and that store is later.
pub fn new_objects_keep()
    ensures held { (g : Ground) (k : Active) (s : Store) (m : List Region) (n r : ℕ) → Held g k s m → sum_by (object_cells g) s.tags + object_cells g r ≤ heap_words
        → r < length g.program.types.records → g.descriptor r < 2 ^ 64 → n ≡ row_cells (record_row g.program.types r)
        → Held g k (with_object s n r) (store false m (next g s.tags) (g.descriptor r)) }
    ensures later { (g : Ground) (k : Active) (frame : ℕ) (s : Store) (n r : ℕ) → Later g k frame s (with_object s n r) }
{}

/// A call's object comes to be held where its own bytes, above those of older calls, have its cells' numbers; and when it is gone the others are held.
pub fn calls_keep()
    ensures comes { (g : Ground) (k : Active) (call : Call) (s : Store) (cs : List Cell) (m m2 : List Region) → length k.types ≡ length k.cells → Laid g k.local call
        → sum k.cells + call.cells ≤ local_words → Held g k s m → Beyond k.local m m2 → length cs ≡ call.cells
        → ((v c b x : ℕ) (f : Form) (value : Cell) → VariableNode g.packed (map (data_tree g.program.types) call.types) v c b (Scalar f) → call.slot v ≡ Some x
        → slice_get cs c ≡ Some value → ValueIs g s.tags value (load (takes_byte g f) m2 (x + b))) → Held g (above k call) (with_frame cs s) m2 }
    ensures goes { (g : Ground) (k : Active) (call : Call) (s t : Store) (m0 m : List Region) → length k.types ≡ length k.cells → Held g k s m0
        → next g s.tags ≤ next g t.tags → Held g (above k call) t m → Held g k (without_frame (length k.types) t) m }
{}

/// In each layout by the trees of types the first memory holds the first store: globals that are 0, and behind them the program's own constants,
/// where it has record types or strings.
pub fn first_stores_are_held()
    ensures { (p : Program) (packed : Bool) (l : Layout) (code : ℕ → Option ℕ) (constants input : List ℕ) → IsLayout packed p.types l
        → globals_room p l + length constants ≤ 0x10000000 → AreBytes constants → ConstantsAre p l constants
        → ((r j : ℕ) → r < length p.types.records → j < 16 → address_of p l data_base (ancestor p.types j r) < 2 ^ 64) → all (λ x. nat_lt x 256) input ≡ true
        → Held (first_ground p packed l code constants) no_calls (start p input) (first_memory (globals_room p l) constants) }
{}
