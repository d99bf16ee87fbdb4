//! The conditions of valid procedures, one by one.

ghost use Rattle.std.specs.Prelude.{◌≡◌, ℕ, ◌*◌, ◌<◌, ◌≤◌, length, min, true, None, All, Box, Vec};
ghost use Rattle.std.specs.declared.alloc.Global.{Global as Heap};
ghost use Rattle.block_runs.specs.Valid.{IsPlaced, params_of, size_of};
ghost use Rattle.ob_types.specs.Table.{Table};
ghost use Rattle.ob_types.specs.WellFormed.{well_formed};
ghost use Rattle.ob_types.specs.declared.program.Procedure.{Procedure};
ghost use Rattle.ob_types.specs.declared.program.Program.{Program};
ghost use Rattle.ssa_core.specs.Validity.{IsValid};
ghost use Rattle.lowered_valid.specs.Contents.{IsBare};
ghost use Rattle.ssa_lowered.specs.Data.{Layout, in_cells, packed};
ghost use Rattle.ssa_lowered.specs.Limits.{limit_of};
ghost use Rattle.ssa_lowered.specs.Lowered.{lowered, lowered_by, proc_of};
ghost use Rattle.ssa_lowered.specs.Variables.{words_of};
ghost use Rattle.lowered_valid.specs.Claims.{code_of, MakesInOrder, ReadsItsValues, LeadsToItsBlocks, EntersFromItsBlocks};
ghost use Rattle.lowered_valid.specs.Claims.{HasFittingArguments, HasKnownConditions, HasFittingOperations, TakesFewWords};
ghost use Rattle.lowered_valid.specs.TreeSizes.{tree_size, IsSmall};
ghost use Rattle.lowered_valid.specs.Claims.{IsShort, IsNarrow, IsWithinLimits, CanBeLowered};
ghost use Rattle.lowered_valid.specs.Modest.{HasFewValues, HasSmallData};

/// The values that a procedure's blocks make are 0, 1, 2 and so on, in order, each once, as many as the procedure says.
pub fn values_are_made_once()
    ensures { (p : Program) (l : Layout) (f : ℕ) (q : Procedure) → MakesInOrder (proc_of p l f q) }
{}

/// No value is live into the first block, or into a block that makes it: each value that is read was made before, on every way.
pub fn values_are_placed()
    ensures { (p : Program) (l : Layout) (f : ℕ) (q : Procedure) → IsPlaced (code_of (proc_of p l f q)) }
{}

/// Each value that is read is one of the procedure's.
pub fn values_are_below()
    ensures { (p : Program) (l : Layout) (f : ℕ) (q : Procedure) → ReadsItsValues (proc_of p l f q) }
{}

/// Each end leads to blocks that are there, there is a first one, and what enters a loop is one of them.
pub fn targets_are_there()
    ensures ends { (p : Program) (l : Layout) (f : ℕ) (q : Procedure) → LeadsToItsBlocks (proc_of p l f q) }
    ensures first { (p : Program) (l : Layout) (f : ℕ) (q : Procedure) → 0 < length (code_of (proc_of p l f q)) }
    ensures loops { (p : Program) (l : Layout) (f : ℕ) (q : Procedure) → EntersFromItsBlocks (proc_of p l f q) }
{}

/// A jump has an argument for each parameter of the block where it leads, and a test leads to blocks without parameters. The first block
/// has a parameter for each argument word, at most four.
pub fn arguments_fit_parameters()
    ensures ends { (p : Program) (l : Layout) (f : ℕ) (q : Procedure) → HasFittingArguments (proc_of p l f q) }
    ensures first { (p : Program) (l : Layout) (f : ℕ) (q : Procedure) → params_of (code_of (proc_of p l f q)) 0 ≡ min 4 (words_of q.formals) }
{}

/// The condition of each branch is one of the fourteen.
pub fn conditions_are_known()
    ensures { (p : Program) (l : Layout) (f : ℕ) (q : Procedure) → HasKnownConditions (proc_of p l f q) }
{}

/// In both layouts nothing takes more than eight bytes a cell.
pub fn layouts_are_narrow()
    ensures cells { (t : Table) → IsNarrow t (in_cells t) }
    ensures packed { (t : Table) → IsNarrow t (packed t) }
{}

/// Of a well-formed program that passes no limit: each operation has as many uses as it must have, and a result or none; its number is
/// small enough, and a call has at most 24 argument words.
pub fn operations_fit()
    ensures { (p : Program) (l : Layout) → IsWithinLimits l p → All HasFittingOperations (lowered_by l p) }
{}

/// Procedures of a well-formed program take at most 24 argument words, and modules' bodies none.
pub fn argument_words_are_few()
    ensures few { (p : Program) (l : Layout) → well_formed p ≡ true → All TakesFewWords (lowered_by l p) }
    ensures bodies { (p : Program) (l : Layout) → well_formed p ≡ true → All IsBare (lowered_by l p) }
{}

/// A procedure has at most sixteen blocks and operations for each part of its tree, so that small trees become short procedures.
pub fn small_trees_become_short()
    ensures size { (p : Program) (l : Layout) (f : ℕ) (q : Procedure) → size_of (code_of (proc_of p l f q)) ≤ 16 * tree_size q }
    ensures short { (p : Program) (l : Layout) → All IsSmall p.procedures → All IsShort (lowered_by l p) }
{}

/// The procedures of a well-formed program that passes no limit are valid, where they are short, as where their trees are small. There
/// are such programs, in both layouts (a tree with calls has boxes and vectors in it, so it is given with some).
pub fn lowered_procedures_are_valid()
    ensures valid { (p : Program) (l : Layout) → CanBeLowered l p → All IsValid (lowered_by l p) }
    ensures small { (p : Program) → well_formed p ≡ true → limit_of p ≡ None → All IsSmall p.procedures → All IsValid (lowered p) }
    ensures some { Box (Unit {0}) Heap → Vec (Unit {0}) Heap → (p : Program) × CanBeLowered (in_cells p.types) p × CanBeLowered (packed p.types) p }
{}

/// The procedures of a program that passes no limit have no more values each than a procedure may have.
pub fn values_are_few()
    ensures { (p : Program) → limit_of p ≡ None → All HasFewValues (lowered p) }
{}

/// Those of a well-formed one have local data of less than 2^24 bytes, and of less than 2^64 cells.
pub fn local_data_is_small()
    ensures { (p : Program) → well_formed p ≡ true → limit_of p ≡ None → All HasSmallData (lowered p) }
{}
