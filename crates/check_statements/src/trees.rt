//! Checked statements, put together part by part.
//!
//! Each function says of what it makes which image it has (`plain_statement` of judged_tree), for every table of types and
//! all uses of strings. Lists grow at their end: `statements_onto` and its kin (`specs/trees/Onto.antt`) are the image of a list
//! before any rest.

mod made;

pub use made::{
    case_parameter, case_pointer, case_values, for_statement, if_statement, repeat_statement,
    while_statement, with_branch, with_case_part, with_statement, with_type_part,
};
