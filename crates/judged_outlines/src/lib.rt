//! What the judgement made of a procedure is outlined alike by all later pointer types.
//!
//! All that is in scope names pointer types that there are (specs/Among.antt), from the first module on
//! (specs/Upright.antt); and so does what the judgement makes of expressions and statements there. So a layer may outline
//! a procedure when it is complete, and the outline is the one of the finished program. There is no code here.
#![tactic(auto)]

pub mod ends;
mod laws;
mod scopes;

pub use laws::{answers_keep_outlines, bodies_keep_outlines, procedures_keep_outlines};
pub use scopes::{
    all_constants_stay_upright, all_imports_stay_upright, all_procedures_stay_upright,
    all_variables_stay_upright, closed_scopes_are_upright, completed_procedures_are_made_within,
    completed_procedures_stay_upright, constants_stay_upright, declarations_are_made_within,
    declarations_stay_upright, first_scopes_are_upright, headings_are_made_within,
    headings_stay_upright, imports_stay_upright, modules_stay_upright, no_modules_are_upright,
    numbered_procedures_stay_upright, opened_scopes_are_upright, procedures_stay_upright,
    standing_names_stay_upright, type_parts_stay_upright, types_stay_upright,
    variables_stay_upright,
};
