//! A batch.

ghost use Rattle.std.specs.Prelude.{◌≤◌, ◌+◌, ℕ, List, Option, length, map};
ghost use Rattle.trc_texts.specs.words.alloc_choice.Choice.{IsFitChoice};
ghost use Rattle.outside.specs.Files.{Held};
ghost use Rattle.trc_answers.specs.Answers.{Answers, devices};
ghost use Rattle.trc_answers.specs.Causes.{IsPlain};
ghost use Rattle.batch_list.specs.Lists.{plain_line};
ghost use Rattle.batch_jobs.specs.Jobs.{task_of};
ghost use Rattle.batch_jobs.specs.Batches.{AreReplied, BatchComesTo, LinesComeTo, ListComesTo};

use crate::replies::text_of;
use crate::running::JobRunner;
use crate::sources::{BothJobs, read_jobs};
use batch_list::{JobLine, ListFault, read_list};
use batch_serve::serve;
use outside::{Files, Gate, GetFault, Memory, Sink};
use std::alloc::{AllocError, AllocGlobal};
use std::sync::Wait;
use std::thread::Threads;
use trc_answers::{Cause, Device, print};
use trc_texts::image_words::Choice;

/// The most bytes that a list may have.
const MOST_LIST_BYTES: usize = 1_048_576;

/// The most lines that a list may have.
const MOST_LINES: usize = 1024;

/// How many tickets the queue of a batch has room for.
const ROOM: usize = 64;

// Has the jobs answered, and prints the replies.
fn answer_jobs<R: Threads + Wait + AllocGlobal + Sync, O: Sink, G: Gate>(
    rt: &R,
    jobs: BothJobs,
    choice: &Choice,
    steps: u64,
    out: &mut O,
    gate: &G,
) -> Cause
    requires choice { IsFitChoice choice.now }
    requires few { length jobs.first.items + length jobs.second.items ≤ 1024 }
    ensures answers { (held : Option Held) (faults : ℕ) (left : Option (List ℕ)) (input_faults : ℕ)
        → Answers (λ _. AreReplied choice.now steps (map task_of jobs.first.items) (map task_of jobs.second.items))
        (devices held faults left input_faults (O.account out.old)) (devices held faults left input_faults (O.account out.new)) result }
    ensures plain { IsPlain result }
    ensures rises { (O.account out.old).faults ≤ (O.account out.new).faults }
{
    let runner = JobRunner {
        choice: *choice,
        steps,
    };
    let BothJobs { first, second } = jobs;
    match serve(rt, rt.alloc(), &runner, gate, first, second, ROOM) {
        Ok((one, two)) => match text_of(rt.alloc(), one.as_slice(), two.as_slice()) {
            Ok(text) => print(out, text.as_slice()),
            Err(AllocError) => Cause::Memory,
        },
        Err(Memory) => Cause::Memory,
    }
}

// Reads the jobs of lines, has them answered, and prints the replies.
fn answer_lines<R: Threads + Wait + AllocGlobal + Sync, F: Files, O: Sink, G: Gate>(
    rt: &R,
    lines: &[JobLine],
    choice: &Choice,
    steps: u64,
    files: &mut F,
    out: &mut O,
    gate: &G,
) -> Cause
    requires choice { IsFitChoice choice.now }
    ensures answers { (left : Option (List ℕ)) (input_faults : ℕ)
        → Answers (λ _. LinesComeTo (F.held files.old) choice.now steps (map plain_line lines.now))
        (devices (F.held files.old) (F.faults files.old) left input_faults (O.account out.old))
        (devices (F.held files.new) (F.faults files.new) left input_faults (O.account out.new)) result }
    ensures plain { IsPlain result }
    ensures files_rise { F.faults files.old ≤ F.faults files.new }
    ensures out_rises { (O.account out.old).faults ≤ (O.account out.new).faults }
{
    if lines.len() > MOST_LINES {
        return Cause::Limit {
            number: 69,
            index: 0,
        };
    }
    match read_jobs(rt.alloc(), lines, files) {
        Ok(jobs) => answer_jobs(rt, jobs, choice, steps, out, gate),
        Err(cause) => cause,
    }
}

// Answers the list that these bytes are.
fn answer_list<R: Threads + Wait + AllocGlobal + Sync, F: Files, O: Sink, G: Gate>(
    rt: &R,
    list: &[u8],
    choice: &Choice,
    steps: u64,
    files: &mut F,
    out: &mut O,
    gate: &G,
) -> Cause
    requires choice { IsFitChoice choice.now }
    requires few { length list.now ≤ 1048576 }
    ensures answers { (left : Option (List ℕ)) (input_faults : ℕ)
        → Answers (λ _. ListComesTo (F.held files.old) choice.now steps list.now)
        (devices (F.held files.old) (F.faults files.old) left input_faults (O.account out.old))
        (devices (F.held files.new) (F.faults files.new) left input_faults (O.account out.new)) result }
    ensures plain { IsPlain result }
    ensures files_rise { F.faults files.old ≤ F.faults files.new }
    ensures out_rises { (O.account out.old).faults ≤ (O.account out.new).faults }
{
    match read_list(rt.alloc(), list) {
        Ok(lines) => answer_lines(rt, lines.as_slice(), choice, steps, files, out, gate),
        Err(ListFault::BadLine { line }) => Cause::BadLine { line },
        Err(ListFault::Memory) => Cause::Memory,
    }
}

/// Answers the jobs of the list that the file of this name holds, and prints the replies: those to the jobs of submitter 0 in the order
/// of their lines, and then those of submitter 1. Nothing is printed before all jobs are answered. Both submitters pass the gate; each
/// job is compiled by the workers of the choice. It may wait.
pub fn batch<R: Threads + Wait + AllocGlobal + Sync, F: Files, O: Sink, G: Gate>(
    rt: &R,
    list: &str,
    choice: &Choice,
    steps: u64,
    files: &mut F,
    out: &mut O,
    gate: &G,
) -> Cause
    requires { IsFitChoice choice.now }
    ensures answers { (left : Option (List ℕ)) (input_faults : ℕ)
        → Answers (λ _. BatchComesTo (F.held files.old) choice.now steps list.now)
        (devices (F.held files.old) (F.faults files.old) left input_faults (O.account out.old))
        (devices (F.held files.new) (F.faults files.new) left input_faults (O.account out.new)) result }
    ensures plain { IsPlain result }
    ensures files_rise { F.faults files.old ≤ F.faults files.new }
    ensures out_rises { (O.account out.old).faults ≤ (O.account out.new).faults }
{
    match files.read(rt.alloc(), list, MOST_LIST_BYTES) {
        Ok(bytes) => answer_list(rt, bytes.as_slice(), choice, steps, files, out, gate),
        Err(GetFault::NoSuchFile) => Cause::NoSuchFile { word: 0 },
        Err(GetFault::TooLong) => Cause::Limit {
            number: 55,
            index: 0,
        },
        Err(GetFault::Failed) => Cause::ReadFault {
            device: Device::Files,
        },
        Err(GetFault::Memory) => Cause::Memory,
    }
}
