//! The image of results that come from elsewhere.
//!
//! `cut_flows` gives the traces of flows, for which results may be read from a file. `placed_image` takes such results, which the
//! walk by names accepts, and gives the flows' image. The whole plan of a program, its traces and its results lie in memory then;
//! `back_end` instead lets each procedure's results go as its words are made.
#![tactic(auto)]

mod cutting;
mod fault;
mod laws;
mod placing;
mod sharing;

pub use cutting::cut_flows;
pub use fault::PlacingFault;
pub use laws::placed_results_are_linked;
pub use placing::placed_image;
pub use trace_work::WorkFault;
