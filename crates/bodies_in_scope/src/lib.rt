//! What a procedure's body that was put off sees stays as it was.
//!
//! A procedure's name stands in the scope round it, where procedures that follow it only add theirs (`specs/Around.antt`). So,
//! from a later state of its module, a procedure that was put off (later_bodies) sees the same as when its own declarations
//! had been judged: its own names, and those of the module but for later procedures (`specs/Standing.antt`). All of them
//! name types that are known since. So it comes to the same then (`proofs/Bodies.antt`). There is no code here.
#![tactic(auto)]
