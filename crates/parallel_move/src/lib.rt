//! Moves that are made all at once, as steps one after the other.
//!
//! A simultaneous assignment of registers, homes and slots becomes a sequence of steps that does the same, and changes
//! nothing else but X16, which holds what a cycle would lose. The definition of the order (`specs/Order.antt`) looks for
//! the first move that can be made among all that are left; `order` finds it in a table that counts, for each move, how
//! many others still read its destination (`specs/Entries.antt`), and takes n log n. Of few moves, most stand in order
//! already: `leading` counts those without a table.
#![tactic(auto)]

mod entry;
mod front;
mod ordering;
mod step;
mod writers;

pub use front::leading;
pub use lir_core::{Move, Place};
pub use ordering::order;
pub use step::Step;
