//! Laws of trees, nodes and copies.

ghost use Rattle.std.specs.Prelude.{◌≡◌, ◌⊎◌, ◌∷◌, ◌++◌, [], ℕ, ◌+◌, ◌*◌, ◌/◌, ◌%◌, ◌<◌, ◌≤◌, Bool, List, Option, map, nat_lt, sum, take, true, false, Some, slice_get};
ghost use Rattle.run_laws.specs.Turns.{State};
ghost use Rattle.ob_types.specs.Table.{Table};
ghost use Rattle.ob_types.specs.Layout.{kind_of, record_of, types_of, field_place, record_cells, extends};
ghost use Rattle.ob_types.specs.Layout.{cells as cells_of};
ghost use Rattle.ob_types.specs.Forms.{all, forms, types_fine};
ghost use Rattle.ob_types.specs.Store.{Address, Handed, Here, Store, can_write};
ghost use Rattle.ob_types.specs.Statements.{copy_cells};
ghost use Rattle.ob_types.specs.Meaning.{arguments, at_most, designated, effect, element_kind, kind_in, length_of_kind, record_of_kind, start};
ghost use Rattle.ob_types.specs.WellFormed.{Named, all_suit, well_formed};
ghost use Rattle.ob_types.specs.WellFormed.{fine as statement_fine, named as named_by};
ghost use Rattle.ob_types.specs.declared.program.Module.{Module};
ghost use Rattle.ob_types.specs.declared.program.Program.{Program};
ghost use Rattle.ob_types.specs.declared.statements.Stmt.{CopyArray, CopyRecord};
ghost use Rattle.ob_types.specs.declared.tree.Call.{Row_of-Argument};
ghost use Rattle.ob_types.specs.declared.tree.Designator.{Designator};
ghost use Rattle.ob_types.specs.declared.types.Formal.{Formal};
ghost use Rattle.ob_types.specs.declared.types.TypeKind.TheVariants.{Array as ArrayOf, Record as RecordOf};
ghost use Rattle.ob_types.specs.Trees.{DataTree, Array, Record, tree_cells, tree_bytes, tree_forms, wide, round_up, data_tree, record_row, record_extent, field_offset};
ghost use Rattle.ob_types.specs.Trees.{bytes as bytes_of};
ghost use Rattle.object_nodes.specs.Nodes.{Node, Meet, LieApart, VariableNode, variable_start};
ghost use Rattle.object_nodes.specs.Named.{AllNodes, NamesNode};
ghost use Rattle.object_nodes.specs.Running.{GivesOnly, IsCall};
ghost use Rattle.object_nodes.specs.Addresses.{Sides, StandFrom, AreRooted};
ghost use Rattle.object_nodes.specs.AtOnce.{CellsThere, IsAhead, copy_array_at_once, copy_at_once, copy_record_at_once};

/// Two nodes of one tree are nested or lie apart, on the same side in cells and in bytes. Two with one tree are one or lie apart, and so are
/// two arrays whose elements have one tree, whatever their lengths. A node's byte goes by its cell, where it has cells.
pub fn nodes_meet()
    ensures meet { (packed : Bool) (t : DataTree) (c o : ℕ) (s : DataTree) (d q : ℕ) (u : DataTree) → Node packed t c o s → Node packed t d q u
        → Meet packed c o s d q u }
    ensures same { (packed : Bool) (t s : DataTree) (c o d q : ℕ) → Node packed t c o s → Node packed t d q s
        → ((c ≡ d) × (o ≡ q)) ⊎ LieApart packed c o s d q s }
    ensures arrays { (packed : Bool) (t e : DataTree) (n m c o d q : ℕ) → Node packed t c o (Array n e) → Node packed t d q (Array m e)
        → ((c ≡ d) × (o ≡ q) × (n ≡ m)) ⊎ LieApart packed c o (Array n e) d q (Array m e) }
    ensures byte { (packed : Bool) (t s u : DataTree) (c o q : ℕ) → Node packed t c o s → Node packed t c q u → 0 < tree_cells s → 0 < tree_cells u → o ≡ q }
    ensures cells { (packed : Bool) (t : DataTree) (c o : ℕ) (s : DataTree) → Node packed t c o s → c + tree_cells s ≤ tree_cells t }
    ensures bytes { (packed : Bool) (t : DataTree) (c o : ℕ) (s : DataTree) → Node packed t c o s → o + tree_bytes packed s ≤ tree_bytes packed t }
{}

/// A cell takes a byte at least and eight at most, and just eight where nothing is packed. What has a part of eight bytes is whole words, all
/// else has a byte a cell; so no more words and single bytes are moved than there are cells, and rounded up too it takes eight bytes a cell at
/// most.
pub fn trees_take_bytes()
    ensures few { (packed : Bool) (t : DataTree) → tree_bytes packed t ≤ 8 * tree_cells t }
    ensures many { (packed : Bool) (t : DataTree) → tree_cells t ≤ tree_bytes packed t }
    ensures eight { (t : DataTree) → tree_bytes false t ≡ 8 * tree_cells t }
    ensures words { (packed : Bool) (t : DataTree) → wide packed t ≡ true → tree_bytes packed t % 8 ≡ 0 }
    ensures narrow { (packed : Bool) (t : DataTree) → wide packed t ≡ false → tree_bytes packed t ≡ tree_cells t }
    ensures moved { (packed : Bool) (t : DataTree) → tree_bytes packed t / 8 + tree_bytes packed t % 8 ≤ tree_cells t }
    ensures rounded { (packed : Bool) (t : DataTree) → round_up true (tree_bytes packed t) ≤ 8 * tree_cells t }
{}

/// Of variables that stand one behind the other, each from a multiple of 8 bytes on, nodes of one meet as nodes do, and those of two lie
/// apart, in cells and in bytes.
pub fn variables_meet()
    ensures meet { (packed : Bool) (ks : List DataTree) (v c o : ℕ) (s : DataTree) (w d q : ℕ) (u : DataTree)
        → VariableNode packed ks v c o s → VariableNode packed ks w d q u
        → ((v ≡ w) × Meet packed c o s d q u) ⊎ (((v < w) × (c + tree_cells s ≤ d)) ⊎ ((w < v) × (d + tree_cells u ≤ c))) }
    ensures bytes { (packed : Bool) (ks : List DataTree) (v c o : ℕ) (s : DataTree) (w d q : ℕ) (u : DataTree)
        → VariableNode packed ks v c o s → VariableNode packed ks w d q u → v < w
        → variable_start packed ks v + o + tree_bytes packed s ≤ variable_start packed ks w + q }
{}

/// The tree of a type has the cells and the forms that the type has, and takes the bytes of the packed layout; fields and bases are nodes of
/// it, where the table and the layout have them.
pub fn trees_are_types()
    ensures forms { (t : Table) (k : ℕ) → forms t k ≡ tree_forms (data_tree t k) }
    ensures cells { (t : Table) (k : ℕ) → cells_of t k ≡ tree_cells (data_tree t k) }
    ensures field { (t : Table) (r n k : ℕ) → types_fine t ≡ true → slice_get (types_of (record_of t r).fields) n ≡ Some k
        → Node true (Record (record_row t r)) (field_place t r n) (field_offset t r n) (data_tree t k) }
    ensures field_by_cells { (t : Table) (r n k : ℕ) → types_fine t ≡ true → slice_get (types_of (record_of t r).fields) n ≡ Some k
        → Node false (Record (record_row t r)) (field_place t r n) (8 * field_place t r n) (data_tree t k) }
    ensures base { (packed : Bool) (t : Table) (s r : ℕ) → types_fine t ≡ true → extends t s r ≡ true
        → Node packed (Record (record_row t s)) 0 0 (Record (record_row t r)) }
    ensures variables { (t : Table) (ks : List ℕ) (v : ℕ) → variable_start true (map (data_tree t) ks) v ≡ sum (map (λ k. round_up true (bytes_of t k)) (take v ks)) }
{}

/// Of the bytes of a type: an array takes its element's as often as it is long, a record type what it says. A cell takes eight bytes at most, also
/// where the bytes are rounded up; there are none exactly where there are no cells, and no more words and single bytes than cells.
pub fn types_take_bytes()
    ensures array { (t : Table) (k n e : ℕ) → types_fine t ≡ true → kind_of t k ≡ ArrayOf (Some n) e → bytes_of t k ≡ n * bytes_of t e }
    ensures whole { (t : Table) (k r : ℕ) → types_fine t ≡ true → kind_of t k ≡ RecordOf r → bytes_of t k ≡ (record_extent t r).bytes }
    ensures few { (t : Table) (k : ℕ) → bytes_of t k ≤ 8 * cells_of t k }
    ensures rounded { (t : Table) (k : ℕ) → round_up true (bytes_of t k) ≤ 8 * cells_of t k }
    ensures none { (t : Table) (k : ℕ) → bytes_of t k ≡ 0 → cells_of t k ≡ 0 }
    ensures some { (t : Table) (k : ℕ) → cells_of t k ≡ 0 → bytes_of t k ≡ 0 }
    ensures moved { (t : Table) (k : ℕ) → bytes_of t k / 8 + bytes_of t k % 8 ≤ cells_of t k }
{}

/// Of two nodes with cells of one object, which have one tree or are arrays whose elements have one tree, both are at one address, or they
/// share no byte.
pub fn nodes_stand_apart()
    ensures same { (packed : Bool) (spot : ℕ → Option ℕ) (ks : List DataTree) (start : ℕ → Option ℕ) (s : DataTree) (v c o x w d q y : ℕ)
        → AreRooted packed spot ks start → VariableNode packed ks v c o s → StandFrom packed spot c s x
        → VariableNode packed ks w d q s → StandFrom packed spot d s y → 0 < tree_cells s
        → ((c ≡ d) × (x ≡ y)) ⊎ Sides x (tree_bytes packed s) y (tree_bytes packed s) }
    ensures arrays { (packed : Bool) (spot : ℕ → Option ℕ) (ks : List DataTree) (start : ℕ → Option ℕ) (e : DataTree) (n v c o x m w d q y : ℕ)
        → AreRooted packed spot ks start → VariableNode packed ks v c o (Array n e) → StandFrom packed spot c (Array n e) x
        → VariableNode packed ks w d q (Array m e) → StandFrom packed spot d (Array m e) y → 0 < tree_cells (Array n e) → 0 < tree_cells (Array m e)
        → ((c ≡ d) × (x ≡ y)) ⊎ Sides x (n * tree_bytes packed e) y (m * tree_bytes packed e) }
{}

/// In a call of a well-formed program what a designator names is a node of its object's tree, where it names anything, and so is what a call's
/// arguments hand over; it is one for the call that takes it too. Each module's body begins as such a call.
pub fn designators_name_nodes()
    ensures named { (p : Program) (packed : Bool) → well_formed p ≡ true → (fine : types_fine p.types ≡ true) (vs : List (List ℕ)) (here : Here)
        (fuel : ℕ) (s : State Store) → IsCall p packed fine vs here s.store → (d : Designator) (n : Named) → named_by p here.procedure d ≡ Some n
        → GivesOnly (λ tags h. NamesNode p packed vs tags n h) (designated p (at_most p fuel) here d s) }
    ensures handed { (p : Program) (packed : Bool) → well_formed p ≡ true → (fine : types_fine p.types ≡ true) (vs : List (List ℕ)) (here : Here)
        (fuel : ℕ) (s : State Store) → IsCall p packed fine vs here s.store → (m : _) (row : Row_of-Argument m) (xs : List Formal)
        → all_suit p here.procedure row xs ≡ true
        → GivesOnly (λ tags hs. AllNodes p packed vs tags xs hs) (arguments p (at_most p fuel) here row s) }
    ensures taken { (p : Program) (packed : Bool) (vs : List (List ℕ)) (own tags : List ℕ) (xs : List Formal) (hs : List Handed)
        → AllNodes p packed vs tags xs hs → AllNodes p packed (vs ++ own ∷ []) tags xs hs }
    ensures bodies { (p : Program) (packed : Bool) → well_formed p ≡ true → (fine : types_fine p.types ≡ true) (input : List ℕ)
        → all (λ x. nat_lt x 256) input ≡ true → (i : ℕ) (m : Module) → slice_get p.modules i ≡ Some m
        → IsCall p packed fine [] (record { procedure = m.body; frame = 0; arguments = [] }) (start p input) }
{}

/// Cells that are there, copied so that none is written before it is read, are copied at once: a turn for each is spent, and then the
/// destination's have what the source's had. So it is with each copy of an array or a record in a call of a well-formed program.
pub fn copies_are_at_once()
    ensures cells { (n : ℕ) (to from : Address) (s : State Store) → CellsThere n to s.store → CellsThere n from s.store → can_write to.area ≡ true
        → IsAhead n to from → copy_cells n to from s ≡ copy_at_once n to from s }
    ensures arrays { (p : Program) (packed : Bool) → well_formed p ≡ true → (fine : types_fine p.types ≡ true) (vs : List (List ℕ)) (here : Here)
        (fuel rounds : ℕ) (s : State Store) → IsCall p packed fine vs here s.store → (d e : Designator)
        → statement_fine p here.procedure (CopyArray d e) ≡ true → effect p (at_most p fuel) here rounds (CopyArray d e) s
        ≡ copy_array_at_once here.procedure (designated p (at_most p fuel) here d) (length_of_kind (kind_in d))
        (designated p (at_most p fuel) here e) (length_of_kind (kind_in e)) (cells_of p.types (element_kind (kind_in d))) s }
    ensures records { (p : Program) (packed : Bool) → well_formed p ≡ true → (fine : types_fine p.types ≡ true) (vs : List (List ℕ)) (here : Here)
        (fuel rounds : ℕ) (s : State Store) → IsCall p packed fine vs here s.store → (d e : Designator)
        → statement_fine p here.procedure (CopyRecord d e) ≡ true → effect p (at_most p fuel) here rounds (CopyRecord d e) s
        ≡ copy_record_at_once (designated p (at_most p fuel) here d) (designated p (at_most p fuel) here e)
        (record_cells p.types (record_of_kind (kind_in d))) s }
{}
