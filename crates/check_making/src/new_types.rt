//! Array, record and pointer types, once their parts are judged (Oberon-07 report, sections 6.2 to 6.4).
//!
//! Each function is a part of the judgement on the state between declarations (`crate::making`), as in `crate::parameters`: its
//! clause `judged` says that from each state of the judgement that the code's stands for, its answer is the judgement's, and
//! what the state then stands for is what that leaves. `IsSoFar` (`specs/new_types/Layouts.antt`) says what a layout stands for while
//! the fields of its record type are judged.

mod array_types;
mod fields;
mod layouts;
mod pointers;
mod records;

pub use array_types::{LIMIT, array_of, arrays};
pub use fields::{add_fields, stand_fields};
pub use layouts::begun;
pub use pointers::{forward_name, point_to, wait_for};
pub use records::record_of;
