//! The meaning, executed: what a checked program does on an input, turn by turn.
//!
//! The machine keeps what is left to do as a list of tasks, the values that they take from each other as a stack, and
//! the call that runs. What has no call is done at once; a task that is another part of the tree is replaced by the
//! tasks that it is made of; any other takes its values and acts. No step changes what is left of the meaning, so what
//! comes out is what the meaning says.
#![tactic(auto)]

mod acts;
mod answer;
mod branches;
mod calls;
mod evaluation;
mod expressions;
mod loops;
mod machine;
mod makes;
mod running;
mod statements;

pub use answer::Eval;
pub use evaluation::eval;
