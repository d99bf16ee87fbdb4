//! What the tree of an expression shows at once: its first symbol, and whether it is one qualident.
//!
//! Each clause says that this is what the judgement sees in the tree's syntax. `proofs/symbols/Parts.antt` has the syntax of
//! each part of an expression, from the parts that code takes out of it.

mod bare;
mod first;

pub use bare::{BareName, bare_list, bare_simple};
pub use first::expression_first;
