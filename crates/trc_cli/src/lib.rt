//! The command line: the top call, which the program makes with its words and the world's devices.
//!
//! `trc` does what its words ask for: it compiles modules and runs their image, writes the image or its native program to a file,
//! tells the traces, runs the image that a file holds, makes a module and runs it, does what modules mean, alone or beside the run of
//! their image, answers a batch of jobs, or tells the commands; and it answers a cause and a status.
//! `specs/Commands.antt` says what words come to when nothing fails; what is answered then is that, a read fault, a write fault, or
//! want of memory (`trc_answers`). The clauses of `trc` say so, and what is told on the error sink.
#![tactic(auto)]

mod building;
mod bulk;
mod commands;
mod explaining;
mod laws;
mod program;
mod running;
mod top;
mod tracing;

pub use compare_commands::both_agree;
pub use laws::{answers_are_verdicts, audit_of_noted_accepts, exec_of_built_is_run};
pub use program::run_program;
pub use top::trc;
pub use trc_answers::{Cause, Device, Outcome};
