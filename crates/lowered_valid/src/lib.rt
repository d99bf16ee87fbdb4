//! Lowered procedures are valid.
//!
//! What a procedure has to be is `IsValid` of `ssa_core`. Each of its conditions is a law here, on a clause of a function of its
//! own. Those on values, targets and arguments hold of the procedures of every program, well-formed or not, and of every layout
//! of data; those on operations and argument words of well-formed programs, in layouts where nothing takes more than eight bytes
//! a cell. Where no limit is passed, they have few values and few local data. `unmade_values_never_matter` says of all valid
//! procedures that what their values contain before they are made changes nothing.
#![tactic(auto)]

mod laws;
mod unmade_values;

pub use laws::{
    argument_words_are_few, arguments_fit_parameters, conditions_are_known, layouts_are_narrow,
    local_data_is_small, lowered_procedures_are_valid, operations_fit, small_trees_become_short,
    targets_are_there, values_are_below, values_are_few, values_are_made_once, values_are_placed,
};
pub use unmade_values::unmade_values_never_matter;
