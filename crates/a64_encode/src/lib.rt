//! Words with branches to labels, and the code words that they come to.
//!
//! `assemble` takes lines: instructions, labels, and branches that name a label. It gives a word for each
//! instruction and each branch, in order, with the distance from the branch to its label. The layer above
//! uses the clause `words` of `assemble`, and `branches_arrive`: a branch with that distance goes to the
//! label's word.
#![tactic(auto)]

mod asm;
mod assembling;
mod fault;
mod laws;

pub use asm::{Asm, Branch};
pub use assembling::assemble;
pub use fault::AsmFault;
pub use laws::branches_arrive;
