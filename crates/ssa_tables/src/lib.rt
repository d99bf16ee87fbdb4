//! Where a program's data stands, for the lowering of each of its procedures.
//!
//! `program_tables` makes, once for a program, all that its procedures share: the addresses of variables, descriptors and
//! strings, the sizes of types, the offsets of fields, and which string is each procedure's first. `enter` makes what belongs to
//! one procedure, in any order of them, and lends it what they share. The tables are those that lowering asks for (`Serves`, in
//! `ssa_exprs`). The limits of a program's and a procedure's data are found on the way. Variables whose addresses are made
//! (`lent`) stand in memory. `program_constants` makes the bytes of the constants, at the places that the tables say
//! (`constants`).
#![tactic(auto)]

mod cells;
pub mod constants;
mod fault;
mod fields;
mod globals;
mod laws;
mod lent;
mod locals;
mod places;
mod procedure;
mod program;
mod sizes;
mod strings;

pub use constants::{constants_are_counted, globals_are_counted, program_constants};
pub use fault::LowerFault;
pub use laws::well_formed_is_measured;
pub use locals::{Locals, Variable, is_structured, words};
pub use procedure::{Entered, enter};
pub use program::{check_constants, program_tables};
