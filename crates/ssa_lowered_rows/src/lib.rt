//! Worked programs: their checked trees, and the procedures, constants and limits of their lowering, by computation.
//!
//! Each stands in a file of proofs/ that bench/lowered_rows.py writes from the programs' texts, with the blocks, operations,
//! values and frequencies that an independent compiler makes of them: every number is equal. Most are lowered in the layout in use; those of
//! `Cells` are those of `Low` once more, where each cell takes eight bytes.
#![tactic(auto)]
