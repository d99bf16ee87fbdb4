//! Whole programs that the judgement accepts are well-formed.
//!
//! What the judgement keeps from declaration to declaration and from module to module, whatever the program is
//! (specs/Tidy.antt, specs/TidyModules.antt), is compared with the program as code holds it (specs/ProgramOf.antt), whose
//! table of types is as its maker promises (specs/LegalTable.antt).
#![tactic(auto)]

mod keeping;
mod laws;
mod records;

pub use keeping::{
    declarations_stay_tidy, first_scopes_are_tidy, modules_stay_tidy, no_modules_are_tidy,
    parameters_stay_tidy, type_parts_stay_tidy, types_stay_tidy, variables_stay_tidy,
};
pub use laws::{
    bodies_are_in_order, counts_are_fine, legal_programs_are_well_formed, module_bodies_are_bare,
    procedures_are_fine, programs_are_inside, strings_are_bytes, tables_are_faithful,
    types_are_fine, types_are_legal, variables_are_fine,
};
pub use records::{
    bases_are_complete, begun_pointers_stay_tidy, begun_records_stay_tidy,
    completed_records_stay_tidy, fields_stay_tidy, more_fields_stay_tidy, pointers_stay_tidy,
};
