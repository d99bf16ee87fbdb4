//! Texts have one lowering and one meaning.
//!
//! The modules that texts are read as are one, and the judgement of them is; so the programs that texts are differ in what neither
//! lowering nor the meaning sees. With each number of turns the one ends, traps and writes as the other does.

mod laws;

pub use laws::{texts_have_one_lowering, texts_have_one_meaning};
