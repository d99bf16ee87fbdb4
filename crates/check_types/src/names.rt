//! Scopes: what names stand for, and where.
//!
//! A `Scope` is what the judgement calls a world, with a text and its symbols: the modules before, the types, the open
//! scopes, the narrowed variables. The scope of a procedure that was closed can be judged in later too, when more procedures
//! are known. `world_of` (`specs/names/Worlds.antt`) says which. Names are looked up in ordered maps from
//! bytes. Each way to judge a name is a function here, whose clause says that its answer is the judgement's: a name, a
//! member of a module, a qualident, the name of a type.

mod levels;
mod names;
mod predeclared;
mod scope;

pub use levels::Level;
pub use names::look_up;
pub use scope::{
    Basic, Closed, Constant, Declared, Home, Imported, KnownModule, Named, Narrowing, Scope,
    Standard, Variable, VariablePlace,
};
