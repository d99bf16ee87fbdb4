//! Lowering of expressions and designators: their code, appended to a procedure in the making.
//!
//! `Making` keeps the code that is made so far as pieces, with labels for blocks that aren't begun yet; where a limit is
//! passed it notes which, and makes no more. `ProgramTables` keep where the data of a program stands, and `Tables` where that
//! of one of its procedures does. `lower_value` and `lower_cond` append exactly the code that `ssa_lowered` defines of an
//! expression, number by number: their clauses say so by `Gives` and `Tests` (`specs/Making.antt`), which layers above put
//! together for statements.
#![tactic(auto)]

mod lowering;
mod making;
mod named;
mod steps;
mod tables;
mod walk;
mod widths;

pub use lowering::{Lowering, lower_cond, lower_value};
pub use making::{Bound, Making, Piece, Undo};
pub use named::{
    Named, address_in, bytes_in, condition, is_pointer, is_tag, length_in, second, two_operands,
};
pub use steps::half;
pub use tables::{ProgramTables, Tables};
pub use walk::{
    Request, cond, fork, kind_in, length_of_kind, load, named as designated, prepared,
    record_of_kind, value,
};
pub use widths::{CHARACTER_BYTES, load_code, store_code, takes_a_byte};
