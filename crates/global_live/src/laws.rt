//! What being live comes to along paths.

ghost use Rattle.std.specs.Prelude.{ℕ, List};
ghost use Rattle.block_runs.specs.Blocks.{CodeBlock};
ghost use Rattle.block_runs.specs.Live.{Live};
ghost use Rattle.global_live.specs.Reading.{IsReadAlong};

/// A value that is live into a node is read on some path from there before it is made; and one that isn't is read so on
/// no path.
pub fn read_on_paths()
    ensures read { (bls : List CodeBlock) (v n : ℕ) → Live bls v n → (path : List ℕ) × IsReadAlong bls v n path }
    ensures not_needed { (bls : List CodeBlock) (v n : ℕ) (path : List ℕ) → IsReadAlong bls v n path → Live bls v n }
{}
