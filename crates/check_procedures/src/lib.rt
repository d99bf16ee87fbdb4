//! All declarations of a scope, with procedures in each other (Oberon-07 report, sections 4 to 7 and 10).
//!
//! `before_procedures` goes through constants, types and variables; `procedure` judges a procedure. Its name stands, and
//! it takes the next number (`open_procedure`); its heading and its own declarations are judged in its scope; what completes it
//! is its body, RETURN and the name behind END (`close_procedure`). `specs/Parts.antt` has the judgement by these parts. A
//! procedure's body can be judged by itself too (`judged_body`), and the procedure made of it later (`procedure_with`).
#![tactic(auto)]

mod closing;
mod completing;
mod counting;
mod first_parts;
pub mod lines;
pub mod numbers;
mod opening;
mod walk;

pub use completing::{completed, end_name, judged_body, procedure_with};
pub use first_parts::before_procedures;
pub use opening::{OpenProcedure, open_procedure, scope_of};
pub use walk::{declarations, procedure};
