//! A set of values as a row of bits.
//!
//! `ValueSet` is what the policies mark values in, node by node: it is filled from the rows of what is live by words,
//! written out as a list that rises, and emptied, with its memory kept. Contracts see it as that list, so that what is
//! inserted into it is said as for `Homes` of `loc_state`.
#![tactic(auto)]

mod value_set;
mod words;

pub use value_set::ValueSet;
