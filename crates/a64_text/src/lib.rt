//! The text of A64 instructions and words, as GNU objdump prints them without aliases.
//!
//! `specs/Texts.antt` has the text of each row of the table, in the shapes of `specs/Shapes.antt`; `specs/Words.antt` that of
//! a word, which may be no instruction's.
#![tactic(auto)]

mod instrs;
mod parts;
mod shapes;
mod words;

pub use instrs::put_instr;
pub use parts::Told;
pub use words::{put_word, put_word_at};
