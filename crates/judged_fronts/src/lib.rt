//! Modules that are judged leave what the modules before them came to.
//!
//! `modules_stay`: where the judgement accepts some modules and then more, it accepts the first ones alone, and what it gives of all
//! begins with what it gives of these: record types, pointer types, modules and procedures.
#![tactic(auto)]

mod laws;

pub use laws::{modules_stay, procedures_are_by_modules};
