//! What the audit says of results, and what is read in notes, by computation.
//!
//! `bench/audit_rows.py` writes `proofs/Rows.antt`: results for small modules, some with a number or two of their notes changed,
//! with the verdict of an independent audit; and notes, some changed or cut, with what an independent reader makes of them.
#![tactic(auto)]
