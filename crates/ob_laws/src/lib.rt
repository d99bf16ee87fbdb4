//! Laws of the meaning, for every program, well-formed or not.
//!
//! Turns are only spent, output and objects are only added and keep their sizes; more turns change nothing once a
//! program is over; the bound on the recursion is never met. All of it follows from what holds of eleven small acts
//! (proofs/Related.antt): a further law is these eleven facts.
#![tactic(auto)]

mod laws;

pub use laws::{fuel_is_free, only_adds, over_stays_over};
