//! Jobs of two submitters, answered by one who takes them, through a bounded queue that needs no lock.
//!
//! A `Desk` has a queue of tickets, two senders and a taker. A sender puts the tickets of its submitter, in the order of their
//! indices, and the taker takes them; each of both is one atomic step of the queue. Between any two steps the queue, and what each
//! of the three knows, meet one rule (`specs/Rule.antt`). The layer above gives a `Runner` and the jobs of both submitters to
//! `serve`: a thread for each submitter puts tickets, and the caller takes them and runs the jobs.
#![tactic(auto)]

mod desk;
mod runner;
mod serving;
mod sights;
mod submitting;

pub use desk::{Desk, Put, Sender, Taker};
pub use runner::Runner;
pub use serving::serve;
pub use sights::{Sight, Ticket};
