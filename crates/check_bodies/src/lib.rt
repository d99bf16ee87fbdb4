//! Procedures of a module whose bodies wait, and are judged by several workers.
//!
//! `put_off` judges a procedure up to its body and closes its scope; what its body needs is a `Body`. A `Bodies` is a pool's
//! work: the body of each, judged in its scope, where all declarations behind it are known too. `Waits` (`specs/Waits.antt`)
//! says which procedure of the judgement waits. `judged_bodies` has workers judge them, and `fill_all` makes their procedures.
#![tactic(auto)]

mod body;
mod names;
mod putting_off;
mod settling;
mod turns;
mod work;

pub use body::Body;
pub use putting_off::put_off;
pub use settling::{fill_all, judged_bodies};
pub use turns::{judge_turn, put_off_all};
pub use work::Bodies;
