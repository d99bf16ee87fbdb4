//! What the judgement makes of a procedure's body is the same where more types are known.
//!
//! All that is in scope names record types and pointer types that there are (`specs/Later.antt`, and judged_outlines), from
//! the first module on. So a layer may judge a procedure's statements, RETURN and the name behind END when all
//! declarations of its module have been judged. There is no code here.
#![tactic(auto)]

mod known;
mod laws;
mod scopes;

pub use known::{
    all_procedures_leave_types_known, declarations_leave_types_known, headings_leave_types_known,
    procedures_leave_types_known, same_types_stay_known, types_stay_known_on,
};
pub use laws::{answers_are_judged_alike, bodies_are_judged_alike, procedures_are_completed_alike};
pub use scopes::{
    all_constants_stay_rooted, all_imports_stay_rooted, all_procedures_stay_rooted,
    all_variables_stay_rooted, closed_scopes_are_rooted, completed_procedures_stay_rooted,
    constants_stay_rooted, declarations_stay_rooted, first_scopes_are_rooted, headings_stay_rooted,
    imports_stay_rooted, modules_stay_rooted, no_modules_are_rooted,
    numbered_procedures_stay_rooted, opened_scopes_are_rooted, procedures_stay_rooted,
    standing_names_stay_rooted, type_parts_stay_rooted, types_stay_rooted, variables_stay_rooted,
};
