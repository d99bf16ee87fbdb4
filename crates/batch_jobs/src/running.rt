//! Jobs are run.

ghost use Rattle.std.specs.Prelude.{◌≡◌, ◌≤◌, [], length, IfOk};
ghost use Rattle.run_laws.specs.Runs.{output};
ghost use Rattle.trc_texts.specs.words.alloc_choice.Choice.{IsFitChoice};
ghost use Rattle.image_form.specs.Form.{IsInForm};
ghost use Rattle.trc_answers.specs.Causes.{status_of};
ghost use Rattle.trc_answers.specs.Runs.{cause_of_run, run_of};
ghost use Rattle.batch_jobs.specs.Jobs.{IsRunReply, cut_reply, plain_reply};

use crate::front::{Front, MOST_WRITTEN};
use crate::jobs::{Job, JobReply};
use batch_serve::Runner;
use image_form::Image;
use items::Items;
use outside::{Memory, OpenGate};
use std::alloc::Global;
use std::sync::Wait;
use std::thread::Threads;
use trc_answers::{Cause, run_on, status};
use trc_texts::image_words::Choice;
use trc_texts::{Scaffolds, compile, image_alone};

/// The status of a job whose run writes more than a reply has.
const TOO_MUCH: u8 = 3;

// The reply of a run that ended with this status and wrote these bytes, or more where these are more than a reply has.
fn reply(alloc: Global, status: u8, written: &[u8]) -> Result<JobReply, Memory>
    ensures { IfOk result (λ reply. plain_reply reply ≡ cut_reply status written.now) }
{
    let kept = written.len().min(MOST_WRITTEN);
    let front = Vec::from_slice(alloc, &written[..kept])?;
    if kept < written.len() {
        return Ok(JobReply {
            status: TOO_MUCH,
            written: front,
        });
    }
    Ok(JobReply {
        status,
        written: front,
    })
}

// The reply of the run of an image on no input.
fn run_alone(alloc: Global, image: Image, steps: u64) -> Result<JobReply, Memory>
    requires { IsInForm image }
    ensures { IfOk result (λ reply. let outcome = run_of image [] steps in plain_reply reply ≡ cut_reply (status_of (cause_of_run image.places outcome)) (output outcome)) }
{
    let mut front = Front::new(alloc)?;
    match run_on(alloc, image, Vec::new(alloc), steps, &mut front) {
        Cause::Memory => Err(Memory),
        cause => reply(alloc, status(cause), front.bytes()),
    }
}

// The reply of texts that are compiled by a choice, and whose image is run on no input.
fn run_texts<R: Threads + Wait + Sync>(
    rt: &R,
    alloc: Global,
    texts: &[Items<u8>],
    choice: &Choice,
    steps: u64,
) -> Result<JobReply, Memory>
    requires choice { IsFitChoice choice.now }
    requires few { length texts.now ≤ 64 }
    ensures { IfOk result (λ reply. IsRunReply choice.now steps texts.now (plain_reply reply)) }
{
    match compile(rt, alloc, choice, texts, &OpenGate) {
        Ok(made) => run_alone(alloc, image_alone(made, Scaffolds::LetGo), steps),
        Err(ending) => match ending.cause {
            Cause::Memory => Err(Memory),
            cause => reply(alloc, status(cause), &[]),
        },
    }
}

/// Runs jobs: compiles their texts by a choice, and runs each image on no input, for at most so many steps.
#[derive(Drop)]
pub struct JobRunner {
    pub choice: Choice,
    pub steps: u64,
    ghost fit: { IsFitChoice choice },
}

impl Runner for JobRunner {
    ghost use Rattle.batch_jobs.specs.Jobs.{IsReplyTo, plain_reply, task_of};

    type Job = Job;

    type Answer = JobReply;

    ghost is_answer = { λ runner job reply. IsReplyTo runner.choice runner.steps (task_of job) (plain_reply reply) };

    fn run<R: Threads + Wait + Sync>(
        &self,
        rt: &R,
        alloc: Global,
        job: &Job,
    ) -> Result<JobReply, Memory> {
        match job {
            Job::Refused { status } => Ok(JobReply {
                status: *status,
                written: Vec::new(alloc),
            }),
            Job::Sources(job) => {
                run_texts(rt, alloc, job.texts.as_slice(), &self.choice, self.steps)
            }
        }
    }
}
