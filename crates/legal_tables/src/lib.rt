//! The table that the checker builds is one that a legal program has.
//!
//! What a builder of a table keeps, and what the checker keeps of arrays and procedure types (specs/Promised.antt), is all
//! that the laws of whole programs ask of a table.
#![tactic(auto)]

mod laws;

pub use laws::{
    begun_records_leave_complete_ones, built_programs_are_well_formed, built_tables_are_legal,
    completed_records_leave_complete_ones, first_types_are_legal, judged_arrays_are_legal,
    judged_parameters_are_legal, procedure_types_stay_legal, types_stay_legal,
};
