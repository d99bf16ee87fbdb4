//! What holds where a module ends, whatever the program is.
//!
//! Where the judgement accepts a module, each pointer type points to a record type, also those whose base was declared later
//! than they were, and each constant has a value of its type: a truth value is 0 or 1, a character is below 256, NIL is 0,
//! and none is of type BYTE (specs/Ends.antt). There is no code here.

mod laws;

pub use laws::{modules_end_well, no_modules_end_well, offered_constants_are_in_range};
