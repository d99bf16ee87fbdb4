//! How a call of the program ends: its cause, its status and its line; and the parts of commands that compile nothing.
//!
//! `specs/Verdict.antt` says what a command comes to when nothing fails, and `specs/Answers.antt` what is answered then: that, a
//! read fault, a write fault, or want of memory. `specs/Causes.antt` has the status of each cause and the line that tells it.
//! Here are also the files that are read, the run of an image, and what is written: a file's bytes, or lines. `position_of`
//! says where in a text a byte stands, `rule_name` and `limit_name` how rules and limits are called.
#![tactic(auto)]

mod causes;
mod names;
mod places;
mod reading;
mod reporting;
mod running;
mod writing;

pub use causes::{Cause, Device, Ending, Outcome, Spot, status};
pub use names::{limit_name, rule_name};
pub use places::{Position, position_of};
pub use reading::{read_image_file, read_texts};
pub use reporting::report;
pub use running::{exec, run_image, run_on};
pub use writing::{
    accept_image, print, renew_image_file, renew_image_with, write_elf_file, write_file,
    write_image_file, write_image_with,
};
