//! Threads that work on a pool.

ghost use Rattle.std.specs.Prelude.{◌≡◌, ◌+◌, ◌*◌, ◌-◌, ◌<◌, ◌≤◌, true, false, Bool};
ghost use Rattle.std.specs.Thread.{IsSync};
ghost use Rattle.pool_core.specs.Fits.{FitsRun};
ghost use Rattle.trace_pool.specs.Plays.{trace_of};
ghost use Rattle.trace_pool.specs.Slots.{all_shares};
ghost use Rattle.trace_pool.specs.Sits.{IsEnd, Waits};
ghost use Rattle.trace_pool.specs.Seats.{IsPoolOf, IsSeatOf, IsFresh, HasWorked, HasFinishedAll, work_of, stage_of, share_of, draws_of};
ghost use Rattle.pool_core.specs.declared.model.Stage.TheVariants as stage;

use crate::hints::hints_of;
use crate::pool::{Draw, Look, Pool, Seat};
use outside::Gate;
use pool_core::Work;
use std::alloc::Global;
use std::sync::Wait;
use std::thread;
use std::thread::{Threads, join};

// A worker draws at most this often, which is oftener than there are traces.
const ROUNDS: u32 = 0x7fff_ffff;

// The size of the block, in bytes, with which a thread's memory begins.
const KEPT: usize = 1 << 20;

// Passes the gate with the number of the trace that the seat has, runs the trace, and finishes it. False: there was no memory, and the seat has stopped.
fn perform<W: Work, G: Gate>(
    alloc: Global,
    pool: &Pool<W>,
    seat: &mut Seat<W>,
    work: &W,
    gate: &G,
    trace: u32,
    hint: Option<W::Hint>,
) -> bool
    requires sits { IsSeatOf W.parents pool.now seat.old }
    requires work { IsPoolOf W.parents pool.now work.now }
    requires trace { stage_of seat.old ≡ stage.Trace trace 0 }
    requires hint { FitsRun (W.parents work.now) (W.is_hint work.now trace) trace hint }
    ensures sits { IsSeatOf W.parents pool.now seat.new }
    ensures ends { IsEnd result (stage_of seat.new) }
    ensures same { (draws_of seat.new ≡ draws_of seat.old) × (share_of seat.new ≡ share_of seat.old) }
{
    gate.enter(work.gate_number(trace));
    let Ok(done) = work.run(alloc, trace, hint.as_ref()) else {
        seat.stop(pool);
        return false;
    };
    let Ok(hints) = hints_of(alloc, &pool.children, work, trace, &done) else {
        seat.stop(pool);
        return false;
    };
    seat.finish(pool, done, hints);
    true
}

// Waits for the trace of the seat's ticket, and works on it.
fn serve<W: Work, G: Gate, R: Wait>(
    rt: &R,
    alloc: Global,
    pool: &Pool<W>,
    seat: &mut Seat<W>,
    work: &W,
    gate: &G,
) -> bool
    requires sits { IsSeatOf W.parents pool.now seat.old }
    requires work { IsPoolOf W.parents pool.now work.now }
    requires ticket { Waits (stage_of seat.old) }
    ensures sits { IsSeatOf W.parents pool.now seat.new }
    ensures ends { IsEnd result (stage_of seat.new) }
    ensures same { (draws_of seat.new ≡ draws_of seat.old) × (share_of seat.new ≡ share_of seat.old) }
{
    for _ in rt.forever() {
        match seat.look(pool) {
            Look::NotYet => thread::yield_now(),
            Look::Stopped => return false,
            Look::Task { trace, hint } => {
                return perform(alloc, pool, seat, work, gate, trace, hint);
            }
        }
    }
    unreachable!()
}

// Draws, looks, runs and finishes until there is no more.
fn work_on<W: Work, G: Gate, R: Wait>(
    rt: &R,
    alloc: Global,
    pool: &Pool<W>,
    mut seat: Seat<W>,
    work: &W,
    gate: &G,
) -> Seat<W>
    requires work { IsPoolOf W.parents pool.now work.now }
    requires fresh { IsFresh W.parents pool.now seat 4294967296 }
    ensures { HasWorked W.parents pool.now result (share_of seat) }
{
    for _ in 0..ROUNDS {
        match seat.draw(pool) {
            Draw::NoMore => return seat,
            Draw::Drawn => {}
        }
        if !serve(rt, alloc, pool, &mut seat, work, gate) {
            return seat;
        }
    }
    seat.stop(pool);
    seat
}

// The C library gives a thread memory page by page, each with a call of the system for which the others' new pages wait, and what the
// thread lets go stays its own. So one block is asked for and let go untouched. Where there is no room for it, nothing is lost.
fn keep_memory(alloc: Global) {
    if let Ok(block) = Vec::<u8>::with_capacity(alloc, KEPT) {
        drop(block);
    }
}

// Shares the work among as many threads as there are jobs.
fn spread<W: Work, G: Gate, R: Threads + Wait + Sync>(
    rt: &R,
    alloc: Global,
    pool: &Pool<W>,
    seat: Seat<W>,
    work: &W,
    gate: &G,
    jobs: u32,
) -> Seat<W>
    requires jobs { 0 < jobs }
    requires work { IsPoolOf W.parents pool.now work.now }
    requires fresh { IsFresh W.parents pool.now seat (jobs * 4294967296) }
    ensures { HasWorked W.parents pool.now result (share_of seat) }
{
    if jobs == 1 {
        return work_on(rt, alloc, pool, seat, work, gate);
    }
    let (rest, mine) = seat.split(pool);
    let (a, b) = join(
        rt,
        || -> Seat<W>
            requires { IsPoolOf W.parents pool.now work.now × IsFresh W.parents pool.now mine 4294967296 }
            ensures { HasWorked W.parents pool.entry.now result (share_of mine) }
        {
            keep_memory(alloc);
            work_on(rt, alloc, pool, mine, work, gate)
        },
        || -> Seat<W>
            requires { IsSync R.row × (1 < jobs) × IsPoolOf W.parents pool.now work.now × IsFresh W.parents pool.now rest ((jobs - 1) * 4294967296) }
            ensures { HasWorked W.parents pool.entry.now result (share_of rest) }
        {
            keep_memory(alloc);
            spread(rt, alloc, pool, rest, work, gate, jobs - 1)
        },
    );
    b.join(a, pool)
}

/// Works on the pool with as many threads as there are jobs. Each passes the gate before it runs a trace, and stops the
/// pool where it finds no memory. The seat that comes back has the whole share; where it is idle, it has finished every
/// trace, and where it is stopped, there was no memory. It may wait.
pub fn run_workers<W: Work, G: Gate, R: Threads + Wait + Sync>(
    rt: &R,
    alloc: Global,
    pool: &Pool<W>,
    seat: Seat<W>,
    work: &W,
    gate: &G,
    jobs: u32,
) -> Seat<W>
    requires jobs { (0 < jobs) × (jobs ≤ 64) }
    requires work { IsPoolOf W.parents pool.now work.now }
    requires fresh { IsFresh W.parents pool.now seat all_shares }
    requires whole { share_of seat ≡ all_shares }
    ensures worked { HasWorked W.parents pool.now result all_shares }
    ensures all { stage_of result ≡ stage.Idle → HasFinishedAll (W.parents (work_of pool.now)) result }
{
    let mut seat = spread(rt, alloc, pool, seat, work, gate, jobs);
    seat.complete(pool);
    seat
}
