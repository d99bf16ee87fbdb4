//! Code whose data stand elsewhere.
//!
//! The number of `Global` says where a module's variable, a descriptor or a string stands. A program with more modules has its data
//! elsewhere. `specs/Code.antt` has code with 0 for each such place, `specs/Procedures.antt` the procedures that differ in these
//! numbers alone.
#![tactic(auto)]
