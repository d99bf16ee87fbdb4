//! The sources of jobs are read.

ghost use Rattle.std.specs.Prelude.{◌≡◌, ◌≢◌, ◌≤◌, ◌+◌, [], ◌∷◌, ◌++◌, length, map, IfOk, IfErr, OnOk};
ghost use Rattle.batch_list.specs.Lists.{plain_line};
ghost use Rattle.batch_jobs.specs.Jobs.{task_of};
ghost use Rattle.batch_jobs.specs.Sources.{AreJobs, AreUnreadJobs, FailsToRead, IsUnreadJob, most_job_bytes};
ghost use Rattle.batch_jobs.specs.Found.{IsFoundAs, IsJobRead};

use crate::jobs::{Job, JobTexts};
use batch_list::JobLine;
use items::Items;
use outside::{Files, GetFault, Memory};
use std::alloc::Global;
use std::str;
use trc_answers::{Cause, Device};

/// The most bytes that a module's text may have.
const MOST_BYTES: usize = 1_048_576;

/// The most modules that a job may have.
const MOST_MODULES: usize = 64;

/// The most bytes that the sources of all jobs may have.
const MOST_JOB_BYTES: u64 = 67_108_864;

/// The status of a job that names a file which isn't there.
const NO_FILE: u8 = 4;

/// The status of a job that names too many files, or one that is too long.
const TOO_MUCH: u8 = 3;

// What the file of a name gives to a job.
#[derive(Drop)]
enum Found {
    Source(Items<u8>),
    // No source; the job is refused with this status.
    Nothing { status: u8 },
}

/// The jobs of both submitters, each in the order of their lines.
#[derive(Drop)]
pub struct BothJobs {
    pub first: Vec<Job>,
    pub second: Vec<Job>,
}

impl BothJobs {
    // Adds a job of this submitter.
    fn push(&mut self, sender: u8, job: Job) -> Result<(), Memory>
        ensures first { OnOk result (sender ≡ 0 → (self.new.first.items ≡ self.old.first.items ++ job ∷ []) × (self.new.second.items ≡ self.old.second.items)) }
        ensures second { OnOk result (sender ≢ 0 → (self.new.first.items ≡ self.old.first.items) × (self.new.second.items ≡ self.old.second.items ++ job ∷ [])) }
    {
        if sender == 0 {
            self.first.push(job)?;
        } else {
            self.second.push(job)?;
        }
        Ok(())
    }
}

// Reads the file of this name.
fn read_source<F: Files>(alloc: Global, name: &[u8], files: &mut F) -> Result<Found, Cause>
    ensures stays { F.held files.new ≡ F.held files.old }
    ensures rises { F.faults files.old ≤ F.faults files.new }
    ensures found { IfOk result (IsFoundAs (F.held files.old) name.now) }
    ensures fault { IfErr result (FailsToRead (F.faults files.old) (F.faults files.new)) }
{
    let Ok(name) = str::from_utf8(name) else {
        return Ok(Found::Nothing { status: NO_FILE });
    };
    match files.read(alloc, name, MOST_BYTES) {
        Ok(text) => Ok(Found::Source(Items::from_vec(text))),
        Err(GetFault::NoSuchFile) => Ok(Found::Nothing { status: NO_FILE }),
        Err(GetFault::TooLong) => Ok(Found::Nothing { status: TOO_MUCH }),
        Err(GetFault::Failed) => Err(Cause::ReadFault {
            device: Device::Files,
        }),
        Err(GetFault::Memory) => Err(Cause::Memory),
    }
}

// Reads the files of these names, as far as they give sources, and counts the bytes that were read.
fn read_job<F: Files>(
    alloc: Global,
    names: &[Vec<u8>],
    files: &mut F,
    read: &mut u64,
) -> Result<Job, Cause>
    requires { read.old ≤ most_job_bytes }
    ensures stays { F.held files.new ≡ F.held files.old }
    ensures rises { F.faults files.old ≤ F.faults files.new }
    ensures job { IfOk result (IsJobRead (F.held files.old) (map (λ name. name.items) names.now) read.old read.new) }
    ensures fault { IfErr result (IsUnreadJob (F.held files.old) (map (λ name. name.items) names.now) read.old (F.faults files.old) (F.faults files.new)) }
{
    if names.len() > MOST_MODULES {
        return Ok(Job::Refused { status: TOO_MUCH });
    }
    let mut texts = Vec::new(alloc);
    for place in 0..names.len() {
        match read_source(alloc, names[place].as_slice(), files)? {
            Found::Nothing { status } => return Ok(Job::Refused { status }),
            Found::Source(text) => {
                *read += text.len() as u64;
                if *read > MOST_JOB_BYTES {
                    return Err(Cause::Limit {
                        number: 70,
                        index: 0,
                    });
                }
                match texts.push(text) {
                    Ok(()) => {}
                    Err(_) => return Err(Cause::Memory),
                }
            }
        }
    }
    Ok(Job::Sources(JobTexts { texts }))
}

/// Reads the sources of the jobs of these lines, in their order: of each line's files as far as they are there, at most 64 for each,
/// each of at most 1,048,576 bytes, and of 67,108,864 bytes in all.
pub fn read_jobs<F: Files>(
    alloc: Global,
    lines: &[JobLine],
    files: &mut F,
) -> Result<BothJobs, Cause>
    ensures stays { F.held files.new ≡ F.held files.old }
    ensures rises { F.faults files.old ≤ F.faults files.new }
    ensures jobs { IfOk result (λ jobs. AreJobs (F.held files.old) (map plain_line lines.now) (map task_of jobs.first.items) (map task_of jobs.second.items)) }
    ensures few { IfOk result (λ jobs. length jobs.first.items + length jobs.second.items ≤ length lines.now) }
    ensures fault { IfErr result (AreUnreadJobs (F.held files.old) (map plain_line lines.now) (F.faults files.old) (F.faults files.new)) }
{
    let mut jobs = BothJobs {
        first: Vec::new(alloc),
        second: Vec::new(alloc),
    };
    let mut read = 0;
    for place in 0..lines.len() {
        let line = &lines[place];
        let job = read_job(alloc, line.names.as_slice(), files, &mut read)?;
        match jobs.push(line.sender, job) {
            Ok(()) => {}
            Err(Memory) => return Err(Cause::Memory),
        }
    }
    Ok(jobs)
}
