//! Worked programs: their checked trees, and what the definitions say of them, by computation.
//!
//! Each stands in a file of proofs/ that bench/checked_rows.py writes from the programs' texts, with what an
//! independent program says: outputs, traps with their procedures, and turns that are just enough or one too few.
#![tactic(auto)]
