//! What the judgement accepts is well-formed.
//!
//! A judged image is well-formed as ob_types says it of checked trees, clause by clause (specs/Typing.antt), in a
//! setting: what the whole program says (specs/Setting.antt). What the judgement makes of an expression or of
//! statements is so, where each entry of its scopes stands for something well-formed (specs/Standing.antt); and so is
//! the checked program's tree with that image.
#![tactic(auto)]

mod laws;

pub use laws::{
    answered_strings_are_bytes, answers_are_fine, bodies_are_fine, constants_stand,
    expressions_have_forms, expressions_stand, statements_are_fine, strings_are_bytes,
    the_first_world_is_right,
};
