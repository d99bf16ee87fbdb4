//! Images of checked programs do what the programs mean.
//!
//! Here the layers are put together: a program's lowered procedures keep up with its meaning (`lowered_runs`), their flows
//! carry them out (`a64_select`), and an image of flows in traces with sound results runs as they do (`link_plan`).
#![tactic(auto)]

mod laws;

pub use laws::images_mean;
