//! Scopes of procedures, and the procedures of a program that is being built.
//!
//! `Building` has the state between declarations and all procedures so far; `Represents` (`specs/scopes/Building.antt`) says which
//! state of the judgement it stands for. A procedure stands for the judgement's, whatever types are made later, as it was
//! outlined when its body was judged. `enter` opens the scope of a procedure and puts aside what belongs to the scope round
//! it, `leave` closes it; `declare_procedure` makes a procedure's name known in the scope round its own.

mod building;
mod entering;
mod naming;
mod numbers;

pub use building::Building;
pub use entering::{Outer, enter, inside, leave};
pub use naming::declare_procedure;
pub use numbers::variable_numbers;
