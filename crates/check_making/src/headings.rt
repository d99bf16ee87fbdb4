//! Headings of procedures (Oberon-07 report, section 10).
//!
//! `heading` judges what a procedure takes and gives, whose names are known in its scope, and makes its own name known in the
//! scope round it.

mod headings;

pub use headings::heading;
