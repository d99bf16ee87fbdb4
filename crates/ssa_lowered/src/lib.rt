//! Lowering, as definitions: the procedures in SSA form that a checked program becomes.
//!
//! `specs/Lowered.antt` is a recursion on the checked tree over the code of each construct, which `specs/Values.antt`,
//! `specs/Control.antt` and `specs/Statements.antt` give as pieces that carry their places; `specs/Limits.antt` says which
//! limit is passed first, `specs/Constants.antt` what the program's constants are. The code of lowering is proved to make
//! these procedures, and programs are proved to mean what their procedures do: both cite `pieces_stand`.
#![tactic(auto)]

mod laws;

pub use laws::{
    cells_take_few_bytes, fields_lie_apart, layouts_are_by_trees, pieces_stand,
    types_take_their_parts,
};
