//! What the A64 instructions compute beyond arithmetic: flags and conditions, immediates and shifted operands, branch
//! distances, and moves of sixteen bits.
//!
//! A register is a number of 64 bits, as `wrapping_numbers` has them, with its sums, shifts and quotients. Each
//! function here is one effect of the table, and its clause is the word of `specs/` for it; `a64_machine` calls one a
//! row. What compilers need to know of these words, such as what a condition says after SUBS, stands in `proofs/`.
#![tactic(auto)]

mod arithmetic;
mod flags;
mod moves;

pub use arithmetic::{bic, branch_19, branch_26, immediate, madd, msub, orn, sdiv, shifted};
pub use flags::{Flags, ands_flags, csel, csinc, csneg, holds, opposite, subs_flags};
pub use moves::{Move, constant_moves, movk, movn, movz};
