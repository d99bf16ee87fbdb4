//! Submitters put the tickets of their jobs.

ghost use Rattle.std.specs.Prelude.{◌≡◌, ◌≤◌, IfOk, IfErr};
ghost use Rattle.batch_serve.specs.Desks.{IsSenderOf, number_of, put_of};
ghost use Rattle.batch_serve.specs.declared.desk.Sender.{Sender};
ghost use Rattle.batch_serve.specs.Puts.{HasPut};
ghost use Rattle.batch_serve.specs.Submitters.{IsSubmitterOf, jobs_of_submitter, number_of_submitter};

use crate::desk::{Desk, Put, Sender};
use outside::Gate;
use std::snapshot::Snapshot;
use std::sync::Wait;
use std::sync::atomic::{AtomicBool, Ordering};
use std::thread;
use std::thread::{Promise, PromisedHandle, SpawnError, Threads};

// A thread's promise: the sender that it gives back is the one with this number at this desk, and has put no more tickets than
// there are jobs.
#[derive(Drop)]
pub(crate) struct Submission {
    desk: Snapshot<Desk>,
    number: u8,
    jobs: u32,
}

impl Promise<Sender> for Submission {
    ghost use Rattle.batch_serve.specs.Puts.{HasPut};

    ghost kept_by = { λ p sender. HasPut p.desk.value sender p.number p.jobs };
}

impl Submission {
    pub(crate) fn new(desk: &Desk, number: u8, jobs: u32) -> Submission
        ensures { (result.desk.value ≡ desk.now) × (result.number ≡ number) × (result.jobs ≡ jobs) }
    {
        Submission {
            desk: Snapshot::of(desk),
            number,
            jobs,
        }
    }
}

// Who has a submitter's sender: a thread, or the caller.
#[derive(Drop)]
pub(crate) enum Holder {
    Thread(PromisedHandle<Sender, Submission>),
    Caller(Sender),
}

// A submitter: its number, how many jobs it has, and who has its sender.
#[derive(Drop)]
pub(crate) struct Submitter {
    number: u8,
    jobs: u32,
    holder: Holder,
}

// Passes the gate, and puts tickets until there is one for each job, or the submitter shall leave.
pub(crate) fn submit<G: Gate, R: Wait>(
    rt: &R,
    desk: &Desk,
    gate: &G,
    mut sender: Sender,
    jobs: u32,
    leave: &AtomicBool,
) -> Sender
    requires sender { IsSenderOf desk.now sender × (put_of sender ≡ 0) }
    requires jobs { jobs ≤ 1024 }
    ensures { HasPut desk.now result (number_of sender) jobs }
{
    gate.enter(sender.number as u32);
    for _ in rt.forever() {
        if sender.count >= jobs || leave.load(Ordering::SeqCst) {
            break;
        }
        match sender.put(rt, desk) {
            Put::Put => {}
            Put::Full => thread::yield_now(),
        }
    }
    sender
}

// The submitter whose thread was started. Where none was to be had, its sender passes the gate here, and stays with the caller.
pub(crate) fn started<F: FnOnce() -> Sender>(
    desk: &Desk,
    number: u8,
    jobs: u32,
    spawned: Result<PromisedHandle<Sender, Submission>, SpawnError<F>>,
    leave: &AtomicBool,
) -> Submitter
    requires thread { IfOk spawned (λ h. (h.promise.desk.value ≡ desk.now) × (h.promise.number ≡ number) × (h.promise.jobs ≡ jobs)) }
    requires runs { IfErr spawned (λ e. F.pre e.value) }
    requires here { IfErr spawned (λ e. (s : Sender) → F.post e.value s → HasPut desk.now s number jobs) }
    ensures submitter { IsSubmitterOf desk.now result }
    ensures number { (number_of_submitter result ≡ number) × (jobs_of_submitter result ≡ jobs) }
{
    let holder = match spawned {
        Ok(handle) => Holder::Thread(handle),
        Err(refused) => {
            leave.store(true, Ordering::SeqCst);
            Holder::Caller((refused.value)())
        }
    };
    Submitter {
        number,
        jobs,
        holder,
    }
}

impl Submitter {
    // Puts one more ticket, where the caller has the sender.
    pub(crate) fn help<R: Wait>(&mut self, rt: &R, desk: &Desk)
        requires submitter { IsSubmitterOf desk.now self.old }
        requires jobs { jobs_of_submitter self.old ≤ 1024 }
        ensures submitter { IsSubmitterOf desk.now self.new }
        ensures number { (number_of_submitter self.new ≡ number_of_submitter self.old) × (jobs_of_submitter self.new ≡ jobs_of_submitter self.old) }
    {
        let jobs = self.jobs;
        match &mut self.holder {
            Holder::Caller(sender) => {
                if sender.count < jobs {
                    sender.put(rt, desk);
                }
            }
            Holder::Thread(_) => {}
        }
    }

    // Waits for the thread, and gives the sender.
    pub(crate) fn end<R: Threads>(self, rt: &R, desk: &Desk) -> Sender
        requires { IsSubmitterOf desk.now self }
        ensures { HasPut desk.now result (number_of_submitter self) (jobs_of_submitter self) }
    {
        match self.holder {
            Holder::Thread(handle) => handle.join(rt),
            Holder::Caller(sender) => sender,
        }
    }
}
