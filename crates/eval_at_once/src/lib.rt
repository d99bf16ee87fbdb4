//! What has no call is done at once: expressions, designators, conditions, simple statements.
//!
//! Calls alone have effects in an expression. So where an expression has one, its value is left undone with nothing
//! changed, and a layer above begins it anew. Each clause says that what was done is what the meaning does.
#![tactic(auto)]

mod active;
mod choosing;
mod deeds;
mod kinds;
mod places;
mod values;

pub use active::Active;
pub use choosing::{Choice, choose, test};
pub use deeds::{perform, perform_some};
pub use kinds::{element_kind, is_byte, kind_in, known, length_of_kind, record_of_kind};
pub use places::{base, dereferenced, member};
pub use values::{located, value};
