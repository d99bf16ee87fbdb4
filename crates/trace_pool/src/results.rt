//! Every final result of a work.

ghost use Rattle.std.specs.Prelude.{◌≡◌, ◌<◌, ◌≤◌, ℕ, length, IfOk};
ghost use Rattle.pool_core.specs.Events.{AtRest};
ghost use Rattle.pool_core.specs.Tree.{IsTree};
ghost use Rattle.trace_pool.specs.Ends.{AreFinal, AreFinalBelow, ClosedAs};
ghost use Rattle.trace_pool.specs.Slots.{all_shares};
ghost use Rattle.trace_pool.specs.Seats.{IsPoolOf, IsSeatOf, stage_of, share_of, finished_of};

use crate::pool::{Pool, Seat};
use crate::workers::run_workers;
use outside::Gate;
use pool_core::{Memory, Work};
use std::alloc::Global;
use std::sync::Wait;
use std::thread::Threads;

/// Closes the pool, runs what is missing, and gives the final result of each trace at its number. It doesn't wait.
pub fn gather<W: Work>(
    alloc: Global,
    pool: Pool<W>,
    seat: Seat<W>,
    work: &W,
) -> Result<Vec<W::Done>, Memory>
    requires work { IsPoolOf W.parents pool work.now }
    requires tree { IsTree (W.parents work.now) }
    requires sits { IsSeatOf W.parents pool seat }
    requires rest { AtRest (stage_of seat) }
    requires whole { share_of seat ≡ all_shares }
    ensures { IfOk result (λ v. AreFinal (W.is_final work.now) (W.parents work.now) v.items) }
{
    let closed = pool.close(seat);
    let mut finals = Vec::with_capacity(alloc, closed.len())?;
    let mut trace = 0;
    for found in closed {
        let done = match found {
            Some(done) => done,
            None => run_missing(alloc, work, trace, &finals)?,
        };
        finals.push(done)?;
        trace += 1;
    }
    Ok(finals)
}

// Runs a trace, of which all before it have their final results.
fn run_missing<W: Work>(
    alloc: Global,
    work: &W,
    trace: u32,
    finals: &Vec<W::Done>,
) -> Result<W::Done, Memory>
    requires trace { trace < length (W.parents work.now) }
    requires tree { IsTree (W.parents work.now) }
    requires finals { AreFinalBelow (W.is_final work.now) trace finals.now.items }
    ensures { IfOk result (W.is_final work.now trace) }
{
    match work.parent(trace) {
        None => work.run(alloc, trace, None),
        Some(parent) => {
            let hint = work.hint(alloc, &finals[parent as usize], trace)?;
            work.run(alloc, trace, Some(&hint))
        }
    }
}

/// Every final result of the work, each at its trace's number, by as many threads as there are jobs, or traces where these
/// are fewer. It may wait.
pub fn final_results<W: Work, G: Gate, R: Threads + Wait + Sync>(
    rt: &R,
    alloc: Global,
    work: &W,
    gate: &G,
    jobs: u32,
) -> Result<Vec<W::Done>, Memory>
    requires jobs { (0 < jobs) × (jobs ≤ 64) }
    requires tree { IsTree (W.parents work.now) }
    requires small { length (W.parents work.now) ≤ 262144 }
    ensures { IfOk result (λ v. AreFinal (W.is_final work.now) (W.parents work.now) v.items) }
{
    let (pool, seat) = Pool::open(alloc, work)?;
    let threads = threads(jobs, work.count());
    let seat = run_workers(rt, alloc, &pool, seat, work, gate, threads);
    gather(alloc, pool, seat, work)
}

// How many threads share so many traces: one at least, and none that would have no trace of its own.
fn threads(jobs: u32, traces: u32) -> u32
    requires { 0 < jobs }
    ensures jobs { (0 < result) × (result ≤ jobs) }
    ensures traces { 1 < result → result ≤ traces }
{
    jobs.min(traces.max(1))
}
