//! Text for pages of HTML, which no byte of it can break.
//!
//! `put_escaped` appends any bytes as text: what means something in HTML as an entity, what is no printed ASCII as the mark of an
//! unknown character (`specs/Escapes.antt`). What it appends has no `<`, `>` or quote, and an `&` only as the beginning of one of
//! these entities (`escaped_is_text`), so that it stays text between tags and in the quotes of an attribute.
#![tactic(auto)]

mod laws;
mod putting;

pub use laws::escaped_is_text;
pub use putting::{put_escaped, put_number, put_text};
