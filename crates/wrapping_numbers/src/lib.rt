//! Numbers of 64 bits: naturals below 2^64 whose sums, differences and products wrap, read as signed numbers where
//! that is asked.
//!
//! The definitions in `specs/` are what a language with 64-bit integers means and what a processor computes alike:
//! arithmetic modulo 2^64, shifts and turns by an amount modulo 64, the quotient toward 0, DIV and MOD, sets of the
//! numbers 0 to 63. The laws in `proofs/` are what layers above cite: signed readings, bounds, DIV and MOD against
//! the integers, sets element by element. The functions are the shifts, each with the word of `specs/` as its clause.
#![tactic(auto)]

mod shifts;

pub use shifts::{asr, lsl, lsr, ror};
