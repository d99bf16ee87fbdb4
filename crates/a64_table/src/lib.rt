//! The A64 table: which words are instructions, and which instruction each of them is.
//!
//! `encode` gives the word of an instruction, and `decode` the instruction of a word. The table itself is
//! `specs/Table.antt`: a row for each instruction, with its base and its fields at their places. The layers
//! above cite its `word_of` and `InRange` and the `decode_of` of `specs/Decode.antt`, by the laws of
//! `proofs/Laws.antt`, which `round_trips` states.
#![tactic(auto)]

mod decoder;
mod encoder;
mod fields;
pub mod round_trips;

pub use a64_instr::{Bits, Cond, Instr, Reg, Shift};
pub use decoder::decode;
pub use encoder::encode;
