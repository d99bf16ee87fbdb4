//! The checked program: types, trees, and what a program means.
//!
//! The checker makes a `Program`, and the lowering walks it: each name is resolved, each implicit step is explicit, so
//! that neither decides anything again. What a program means (`meaning`, in specs/Meaning.antt) is a recursion on its
//! tree over a store of cells, with a number of turns; all later layers are proved against it.
#![tactic(auto)]

mod characters;
mod program;
mod statements;
mod table;
mod tree;
mod types;

pub use characters::Characters;
pub use program::{Constant, Entity, Module, Object, Procedure, Program};
pub use statements::{Branch, CasePart, Checked, ForLoop, Label, Stmt, TypePart};
pub use table::Types;
pub use tree::{
    Access, Argument, Base, Binary, Call, Designator, Expr, Link, Relation, Selector, Unary,
};
pub use types::{Extent, Field, Formal, Mode, RecordType, Signature, TypeKind};
