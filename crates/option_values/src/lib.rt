//! The values of arguments and options: the tables of their names, the bounds of their numbers, and the defaults.
//!
//! A value that isn't in its table is refused. `specs/Options.antt` has the values and defaults, `specs/Numbers.antt` says
//! which numbers texts spell, and `specs/Values.antt` which names an argument has. `proofs/Fitting.antt` has what holds of all values.
#![tactic(auto)]

mod numbers;
mod options;
mod values;

pub use alloc_choice::{Builder, Choice, Policy};
pub use explanations::{Format, Topic};
pub use options::{
    against, choice, format, jobs, regs, seed, shown_choice, size, steps, topic, traces,
    traces_choice, turns,
};
pub use values::{notes_name, some_values, value};
