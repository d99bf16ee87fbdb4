//! What the checked program, as code holds it, is to the checker's judgement.
//!
//! The judgement (ob_judge) speaks of types by what they are and of trees without memory. Here a table of types means
//! its entries' shapes (specs/TypeShapes.antt), and a checked tree its image (specs/Plain.antt, specs/Outline.antt).
//! What the table says of two numbers is proved to be what the judgement says of their shapes.
#![tactic(auto)]

mod laws;

pub use laws::{
    assignable_agrees, cells_agree, each_has_one_number, each_has_one_shape, extends_agrees,
    same_agrees,
};
