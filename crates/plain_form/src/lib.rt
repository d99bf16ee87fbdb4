//! The plain form: results of allocators as bytes, and back.
//!
//! Each number has four bytes, the lowest first. A list is its count and then its items, a struct its fields in order, an
//! enum the number of its variant and then its fields (`specs/Spelling.antt`). A file in this form begins with a mark.
//! `read_whole` reads one, or names the first rule that its bytes break, with the place (`specs/Reading.antt`); which number
//! a rule has is for each kind of file to say.
//!
//! What has the form implements `ToBytes` and `FromBytes`. That what is read is spelled so, and what is spelled so is read
//! again, is `IsFormat` of both (`specs/Formats.antt`); `proofs/` puts formats together from those of their parts.
#![tactic(auto)]

mod fault;
mod reading;
mod results;
mod writing;

pub use fault::{FormFault, FormRule};
pub use reading::{FromBytes, number, read_whole, up_to};
pub use writing::{ToBytes, put_count, put_each, put_list, put_number};
