//! Small modules as syntax, and what the judgement says of each, by computation.
//!
//! Each file of proofs/ is written by bench/judged_rows.py from the texts in bench/rows/judged, with the verdict of an
//! independent program: the first fault by module, number and place, or the whole checked program.
#![tactic(auto)]
