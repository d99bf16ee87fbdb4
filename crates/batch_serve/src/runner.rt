//! What runs jobs.

ghost use Rattle.std.specs.Prelude.{IfOk};
ghost use Rattle.std.specs.Thread.{IsSync};

use outside::Memory;
use std::alloc::Global;
use std::sync::Wait;
use std::thread::Threads;

/// Runs jobs, each by itself.
pub trait Runner: Sync {
    /// What a submitter asks for.
    type Job: Send + Sync + Drop;

    /// What comes of a job.
    type Answer: Send + Drop;

    /// A job's defined answer.
    ghost is_answer: { Self → Self.Job → Self.Answer → Type 0 };

    /// The job's defined answer; or there was no memory. It may start threads, and may wait.
    fn run<R: Threads + Wait + Sync>(
        &self,
        rt: &R,
        alloc: Global,
        job: &Self::Job,
    ) -> Result<Self::Answer, Memory>
        requires { IsSync R.row }
        ensures { IfOk result (is_answer self.now job.now) };
}
