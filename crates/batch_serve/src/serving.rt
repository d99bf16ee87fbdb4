//! Two submitters are served.

ghost use Rattle.std.specs.Prelude.{◌≡◌, ◌+◌, ◌<◌, ◌≤◌, [], length, IfOk, OnOk, if◌then◌else◌};
ghost use Rattle.std.specs.List.{AllZip};
ghost use Rattle.batch_serve.specs.Desks.{IsTakerOf, IsSender, taken_of};
ghost use Rattle.batch_serve.specs.Puts.{HasPut};
ghost use Rattle.batch_serve.specs.Submitters.{IsSubmitterOf, jobs_of_submitter, number_of_submitter};
ghost use Rattle.batch_serve.specs.Answered.{AnswersUpTo, IsAnswered, ticket_count};
ghost use Rattle.batch_serve.specs.Served.{IsServed};

use crate::desk::{Desk, Sender, Taker};
use crate::runner::Runner;
use crate::submitting::{Submission, Submitter, started, submit};
use outside::{Gate, Memory};
use std::alloc::Global;
use std::sync::Wait;
use std::sync::atomic::{AtomicBool, Ordering};
use std::thread;
use std::thread::Threads;

// The answers to each submitter's first jobs.
#[derive(Drop)]
struct BothAnswers<A> {
    first: Vec<A>,
    second: Vec<A>,
}

// What there is when all jobs are answered.
#[derive(Drop)]
struct Served<A> {
    answers: BothAnswers<A>,
    first: Sender,
    second: Sender,
    taker: Taker,
}

// Whether each submitter shall leave before there is a ticket for each of its jobs.
#[derive(Drop)]
struct LeaveFlags {
    first: AtomicBool,
    second: AtomicBool,
}

// Answers the job with this index, where there is one.
fn answer<N: Runner, R: Threads + Wait + Sync>(
    rt: &R,
    alloc: Global,
    runner: &N,
    jobs: &[N::Job],
    index: u32,
    answers: &mut Vec<N::Answer>,
) -> Result<(), Memory>
    requires { AnswersUpTo (N.is_answer runner.now) jobs.now index answers.old.items }
    ensures { OnOk result (AnswersUpTo (N.is_answer runner.now) jobs.now (index + 1) answers.new.items) }
{
    if (index as usize) < jobs.len() {
        answers.push(runner.run(rt, alloc, &jobs[index as usize])?)?;
    }
    Ok(())
}

// Takes a ticket, if there is one, and answers its job.
fn serve_one<N: Runner, R: Threads + Wait + Sync>(
    rt: &R,
    alloc: Global,
    runner: &N,
    desk: &Desk,
    taker: &mut Taker,
    first: &[N::Job],
    second: &[N::Job],
    answers: &mut BothAnswers<N::Answer>,
) -> Result<bool, Memory>
    requires taker { IsTakerOf desk.now taker.old }
    requires answers { IsAnswered (N.is_answer runner.now) first.now second.now (taken_of taker.old) answers.old.first.items answers.old.second.items }
    ensures taker { IsTakerOf desk.now taker.new }
    ensures answers { OnOk result (IsAnswered (N.is_answer runner.now) first.now second.now (taken_of taker.new) answers.new.first.items answers.new.second.items) }
    ensures count { IfOk result (λ one. ticket_count (taken_of taker.new) ≡ (if one then ticket_count (taken_of taker.old) + 1 else ticket_count (taken_of taker.old))) }
{
    let Some(ticket) = taker.take(rt, desk) else {
        thread::yield_now();
        return Ok(false);
    };
    if ticket.sender == 0 {
        answer(rt, alloc, runner, first, ticket.index, &mut answers.first)?;
    } else {
        answer(rt, alloc, runner, second, ticket.index, &mut answers.second)?;
    }
    Ok(true)
}

// Takes and answers until as many tickets were taken as there are jobs.
fn serve_all<N: Runner, R: Threads + Wait + Sync>(
    rt: &R,
    alloc: Global,
    runner: &N,
    desk: &Desk,
    taker: &mut Taker,
    one: &mut Submitter,
    two: &mut Submitter,
    first: &[N::Job],
    second: &[N::Job],
) -> Result<BothAnswers<N::Answer>, Memory>
    requires jobs { (length first.now ≤ 1024) × (length second.now ≤ 1024) }
    requires taker { IsTakerOf desk.now taker.old × (taken_of taker.old ≡ []) }
    requires one { IsSubmitterOf desk.now one.old × (jobs_of_submitter one.old ≤ 1024) }
    requires two { IsSubmitterOf desk.now two.old × (jobs_of_submitter two.old ≤ 1024) }
    ensures taker { IsTakerOf desk.now taker.new }
    ensures one { IsSubmitterOf desk.now one.new × (number_of_submitter one.new ≡ number_of_submitter one.old) × (jobs_of_submitter one.new ≡ jobs_of_submitter one.old) }
    ensures two { IsSubmitterOf desk.now two.new × (number_of_submitter two.new ≡ number_of_submitter two.old) × (jobs_of_submitter two.new ≡ jobs_of_submitter two.old) }
    ensures answers { IfOk result (λ a. IsAnswered (N.is_answer runner.now) first.now second.now (taken_of taker.new) a.first.items a.second.items) }
    ensures count { OnOk result (ticket_count (taken_of taker.new) ≡ length first.now + length second.now) }
{
    let jobs = first.len() + second.len();
    let mut answers = BothAnswers {
        first: Vec::new(alloc),
        second: Vec::new(alloc),
    };
    let mut taken = 0;
    for _ in rt.forever() {
        if taken == jobs {
            break;
        }
        one.help(rt, desk);
        two.help(rt, desk);
        if serve_one(rt, alloc, runner, desk, taker, first, second, &mut answers)? {
            taken += 1;
        }
    }
    Ok(answers)
}

// Serves both submitters, and waits for their ends. Where there is no memory they are told to leave.
fn attend<N: Runner, R: Threads + Wait + Sync>(
    rt: &R,
    alloc: Global,
    runner: &N,
    desk: &Desk,
    leave: &LeaveFlags,
    mut one: Submitter,
    mut two: Submitter,
    mut taker: Taker,
    first: &[N::Job],
    second: &[N::Job],
) -> Result<Served<N::Answer>, Memory>
    requires jobs { (length first.now ≤ 1024) × (length second.now ≤ 1024) }
    requires one { IsSubmitterOf desk.now one × (number_of_submitter one ≡ 0) × (jobs_of_submitter one ≡ length first.now) }
    requires two { IsSubmitterOf desk.now two × (number_of_submitter two ≡ 1) × (jobs_of_submitter two ≡ length second.now) }
    requires taker { IsTakerOf desk.now taker × (taken_of taker ≡ []) }
    ensures { IfOk result (IsServed (N.is_answer runner.now) desk.now first.now second.now) }
{
    match serve_all(
        rt, alloc, runner, desk, &mut taker, &mut one, &mut two, first, second,
    ) {
        Ok(answers) => {
            let first = one.end(rt, desk);
            let second = two.end(rt, desk);
            Ok(Served {
                answers,
                first,
                second,
                taker,
            })
        }
        Err(memory) => {
            leave.first.store(true, Ordering::SeqCst);
            leave.second.store(true, Ordering::SeqCst);
            one.end(rt, desk);
            two.end(rt, desk);
            Err(memory)
        }
    }
}

// Starts a thread for each submitter, and attends to them.
fn in_scope<'a, N: Runner, G: Gate, R: Threads + Wait + Sync>(
    rt: &'a R,
    alloc: Global,
    runner: &'a N,
    gate: &'a G,
    desk: &'a Desk,
    leave: &'a LeaveFlags,
    one: Sender,
    two: Sender,
    taker: Taker,
    first: &'a [N::Job],
    second: &'a [N::Job],
) -> Result<Served<N::Answer>, Memory>
    requires jobs { (length first.now ≤ 1024) × (length second.now ≤ 1024) }
    requires one { IsSender desk.now one 0 0 }
    requires two { IsSender desk.now two 1 0 }
    requires taker { IsTakerOf desk.now taker × (taken_of taker ≡ []) }
    ensures { IfOk result (IsServed (N.is_answer runner.now) desk.now first.now second.now) }
{
    thread::scope(
        thread::scope_env(),
        rt,
        move |scope| -> Result<Served<N::Answer>, Memory>
            requires { (length first.now ≤ 1024) × (length second.now ≤ 1024) × IsSender desk.now one 0 0 × IsSender desk.now two 1 0 × IsTakerOf desk.now taker × (taken_of taker ≡ []) }
            ensures { IfOk result (IsServed (N.is_answer runner.entry.now) desk.entry.now first.entry.now second.entry.now) }
        {
            let jobs = first.len() as u32;
            let spawned = scope.spawn_with(
                Submission::new(desk, 0, jobs),
                move || -> Sender
                    requires { IsSender desk.now one 0 0 × (jobs ≤ 1024) }
                    ensures { HasPut desk.entry.now result 0 jobs }
                { submit(rt, desk, gate, one, jobs, &leave.first) },
            );
            let one = started(desk, 0, jobs, spawned, &leave.first);
            let jobs = second.len() as u32;
            let spawned = scope.spawn_with(
                Submission::new(desk, 1, jobs),
                move || -> Sender
                    requires { IsSender desk.now two 1 0 × (jobs ≤ 1024) }
                    ensures { HasPut desk.entry.now result 1 jobs }
                { submit(rt, desk, gate, two, jobs, &leave.second) },
            );
            let two = started(desk, 1, jobs, spawned, &leave.second);
            attend(
                rt, alloc, runner, desk, leave, one, two, taker, first, second,
            )
        },
    )
}

/// The defined answers of the jobs of submitters 0 and 1, for each in the order of its jobs. Each submitter has a thread that puts
/// the tickets of its jobs into a queue with this room, and passes the gate with its number before the first; the caller takes the
/// tickets and runs the jobs, and does the work of a submitter whose thread can't be started. It may wait.
pub fn serve<N: Runner, G: Gate, R: Threads + Wait + Sync>(
    rt: &R,
    alloc: Global,
    runner: &N,
    gate: &G,
    first: Vec<N::Job>,
    second: Vec<N::Job>,
    room: usize,
) -> Result<(Vec<N::Answer>, Vec<N::Answer>), Memory>
    requires jobs { (length first.items ≤ 1024) × (length second.items ≤ 1024) }
    requires room { (0 < room) × (room ≤ 64) }
    ensures first { IfOk result (λ r. AllZip (N.is_answer runner.now) first.items r.0.items) }
    ensures second { IfOk result (λ r. AllZip (N.is_answer runner.now) second.items r.1.items) }
{
    let (desk, one, two, taker) = Desk::open(alloc, room)?;
    let leave = LeaveFlags {
        first: AtomicBool::new(false),
        second: AtomicBool::new(false),
    };
    let served = in_scope(
        rt,
        alloc,
        runner,
        gate,
        &desk,
        &leave,
        one,
        two,
        taker,
        first.as_slice(),
        second.as_slice(),
    )?;
    let Served {
        answers,
        first: one,
        second: two,
        taker,
    } = served;
    desk.close(one, two, taker);
    Ok((answers.first, answers.second))
}
