//! What the judgement accepts is well-formed: declarations, procedures and modules.
//!
//! What a part of the judgement makes is compared with the whole program (specs/Agrees.antt): its types, procedures and
//! variables are in it. What then stands for something well-formed stays so (specs/Sound.antt), and each procedure that
//! becomes complete is well-formed (specs/Made.antt).
#![tactic(auto)]

mod laws;
pub mod steps;

pub use laws::{
    constants_stay_sound, modules_are_well, one_module_has_byte_strings,
    one_module_has_fine_procedures, procedures_are_well, sound_scopes_are_right,
    the_first_scope_is_sound, types_stay_sound, variables_stay_sound, well_procedures_are_fine,
};
