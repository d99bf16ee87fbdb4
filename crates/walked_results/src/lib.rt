//! Results of allocators that a walk by the names of values accepts.
//!
//! `IsWalked` (`specs/Walked.antt`) says of a trace's result that its places are rows which have what is live, and that the
//! walk by names takes each node's lines from its start places to its end places. Allocators show it, and an audit tests
//! it line by line. `walked_results_are_sound` leads from it to `IsSound` of `lir_core`, by numbers. There is no way
//! back: a store of a number that nothing reads later is sound, and no walk takes it.
#![tactic(auto)]

mod laws;

pub use laws::walked_results_are_sound;
