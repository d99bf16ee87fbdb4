//! Variables and their parts judged: elements, fields, what pointers point to, guards and type tests.
//!
//! A `Part` is a variable or a part of one, perhaps guarded; `IsPart` (`specs/parts/Parts.antt`) says which operand of the
//! judgement it is. Each function's clause says that its answer is the judgement's.

mod elements;
mod fields;
mod guards;
mod part;
mod variables;

pub use elements::{element, followed, target};
pub use fields::field;
pub use guards::{guarded, tested};
pub use part::{Part, Reach, operand, place_of};
pub use variables::{variable_read, whole_operand};
