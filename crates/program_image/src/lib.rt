//! From a checked program to its image.
//!
//! `program_image` takes the procedures of a well-formed program through lowering, selection and allocation to their words, each as a
//! task of a pool, makes its constants by the tables of lowering, and links all. The image is that of the program's flows by the
//! choice, and the machine that runs it is in step with the program's meaning; a program that is refused has passed a limit, the first
//! one, or memory ran out.
//! `program_traces` tells the traces instead. The steps before selection are public for who plans a program and makes its image
//! from other results.
#![tactic(auto)]

mod data;
mod fault;
mod imaging;
mod making;
mod sizes;
mod tracing;
mod work;

pub use back_end::{Builder, Choice, Image, ImageFault, LinkedProcedures, Policy, select_all};
pub use data::program_data;
pub use fault::{ProgramFault, of_lowering, whole_limit};
pub use flow_allocation::{AllocatedFlows, allocate_flows};
pub use imaging::{Compiled, Scaffold, linked_program, program_image};
pub use link_plan::{ImageData, LinkFault, link};
pub use sizes::are_short;
pub use tracing::program_traces;
