//! Programs of one form mean the same, turn by turn.
//!
//! The judgement gives a program but for the numbers of its types, and for what else a checked tree holds and its image doesn't. The
//! meaning reads none of that: it is a function of the form (`one_lowering/specs/Forms.antt`), so programs of one form end, trap and
//! write alike with each number of turns.
#![tactic(auto)]

mod laws;

pub use laws::forms_have_one_meaning;
