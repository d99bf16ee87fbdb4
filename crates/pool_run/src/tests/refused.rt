//! Five traces under two roots, of which one run finds no memory, each run in turn.

use super::sums_are_right;
use memory_devices::MeetGate;
use outside::{Gate, OpenGate};
use std::alloc::Global;
use std::process::Abort;
use std::sync::Wait;
use std::test::Fail;
use std::thread::Threads;
use sum_tree::SumTree;
use trace_pool::{Pool, gather, run_workers};

// Runs the five traces by so many workers, where the run of this number, counted from 0, finds no memory: each trace has its final
// result, and one run more was made.
fn all_are_final<G: Gate, R: Threads + Wait + Sync + Abort>(
    rt: &R,
    alloc: Global,
    gate: &G,
    jobs: u32,
    failing: u64,
) -> Result<(), Fail> {
    let parents = vec![in alloc; None, Some(0), Some(0), None, Some(3)]?;
    let tree = SumTree::new(parents, 10, Some(failing)).ok_or("no tree")?;
    let (pool, seat) = Pool::open(alloc, &tree)?;
    let seat = run_workers(rt, alloc, &pool, seat, &tree, gate, jobs.clamp(1, 64));
    let finals = gather(alloc, pool, seat, &tree)?;
    sums_are_right(rt, &tree, finals.as_slice());
    assert_eq!(rt; tree.runs(), 6);
    Ok(())
}

#[test]
fn each_run_finds_no_memory_in_turn(rt: HostRuntime) -> Result<(), Fail> {
    for jobs in [1, 2, 8] {
        for failing in 0..5 {
            all_are_final(&rt, rt.alloc(), &OpenGate, jobs, failing)?;
            // the first worker inside is held until another is
            all_are_final(&rt, rt.alloc(), &MeetGate::new(1000), jobs, failing)?;
        }
    }
    Ok(())
}
