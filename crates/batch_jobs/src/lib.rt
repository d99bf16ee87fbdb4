//! The jobs of a batch: from a list's lines to what is printed.
//!
//! `batch` reads a list and the sources of its jobs, has the jobs answered for their two submitters, each as `run` answers its modules
//! on empty input, and prints the replies. `specs/Jobs.antt` says what the reply to a job is, `specs/Sources.antt` which jobs lines
//! are, and `specs/Batches.antt` what a list comes to when nothing fails.
#![tactic(auto)]

mod batches;
mod front;
mod jobs;
mod replies;
mod running;
mod sources;

pub use batches::batch;
pub use jobs::{Job, JobReply, JobTexts};
pub use running::JobRunner;
pub use sources::{BothJobs, read_jobs};
pub use trc_texts::image_words;
