//! Declarations are judged alike where the bodies of procedures are put off.
//!
//! `put_off` (`specs/Waiting.antt`) is the judgement of a procedure up to its body: its name, its heading and its own
//! declarations. Where all bodies that were put off come to something, the judgement in the order of the text comes to what
//! was made without them, with these bodies filled in (`walk`). This is so because declarations don't read the procedures
//! but for how many there are (`others`). There is no code here.
#![tactic(auto)]

mod others;
mod walk;

pub use others::{
    all_procedures_are_judged_beside_others, constants_are_judged_beside_others,
    declarations_are_judged_beside_others, headings_are_judged_beside_others,
    names_stand_beside_others, procedures_are_judged_beside_others,
    procedures_are_put_off_beside_others, types_are_judged_beside_others,
    variables_are_judged_beside_others,
};
pub use walk::{
    as_many_are_filled_in, bodies_are_filled_in, no_procedure_waits_at_first, one_more_came,
    one_more_is_filled_in, one_more_procedure_is_judged_at_once, one_more_procedure_waits,
    procedures_are_put_off_and_completed,
};
