//! Judging statements, one part of the tree after another.
//!
//! `specs/steps/Steps.antt` has the judgement's statements by the fields of the structs that code walks over, and with what the
//! parts so far put before those that follow; `proofs/steps/Laws.antt` says that they are the judgement's own (`if_is`, `case_is`
//! and the others), and of each list what one more of its items comes to (`put_law`, `elsif_law`, `part_law`). There is no
//! code here.
