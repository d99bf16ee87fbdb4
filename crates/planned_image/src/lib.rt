//! A program's plan, and its image from results that come from elsewhere.
//!
//! `program_plan` and `source_plan` give a program's procedures as flows in traces, with its data. `audited_image` takes results for
//! these traces, whoever made them: it tells the first failure, or gives the image that is linked from them, which does what the
//! program means. All flows and results lie in memory; `program_image` lets each procedure's results go as its words are made.
#![tactic(auto)]

mod auditing;
mod fault;
mod laws;
mod planning;
mod sources;

pub use auditing::audited_image;
pub use fault::AuditFault;
pub use image_words;
pub use image_words::{Builder, Image, ProgramFault, Refusal};
pub use laws::{own_results_have_one_image, own_results_pass};
pub use placed_image::{WorkFault, cut_flows};
pub use planning::{ProgramFlows, ProgramPlan, program_flows, program_plan};
pub use sources::source_plan;
