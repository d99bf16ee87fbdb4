//! The pool with real threads: what each final result is, and that two workers are inside at once.

mod calls;
mod refused;
mod seats;

use crate::made::{Shape, made_tree};
use memory_devices::MeetGate;
use outside::{Gate, Memory, OpenGate};
use std::alloc::Global;
use std::process::Abort;
use std::sync::Wait;
use std::test::Fail;
use std::thread::Threads;
use sum_tree::SumTree;
use trace_pool::{Pool, final_results, run_workers};

// A trace's own number, once more and plainly.
fn number(rounds: u32, trace: u32) -> u64 {
    let mut value = trace as u64;
    for _ in 0..rounds {
        value = value
            .wrapping_mul(6364136223846793005)
            .wrapping_add(1442695040888963407);
    }
    value
}

fn sums_are_right(rt: &impl Abort, tree: &SumTree, finals: &[u64]) {
    assert_eq!(rt; finals.len(), tree.parents.len());
    for trace in 0..tree.parents.len() {
        let own = number(tree.rounds, trace as u32);
        let wanted = match tree.parents[trace] {
            None => own,
            Some(parent) => {
                assert!(rt; (parent as usize) < finals.len());
                finals[parent as usize].wrapping_add(own)
            }
        };
        assert!(rt; trace < finals.len());
        assert_eq!(rt; finals[trace], wanted);
    }
}

fn finals_with<G: Gate, R: Threads + Wait + Sync>(
    rt: &R,
    alloc: Global,
    tree: &SumTree,
    gate: &G,
    jobs: u32,
) -> Result<Vec<u64>, Memory> {
    final_results(rt, alloc, tree, gate, jobs.clamp(1, 64))
}

#[test]
fn every_final_result(rt: HostRuntime) -> Result<(), Fail> {
    for shape in [Shape::Bushy, Shape::Chain, Shape::Apart] {
        for jobs in [1, 2, 8, 64] {
            let tree = made_tree(rt.alloc(), shape, 300, 10, None)?;
            let finals = finals_with(&rt, rt.alloc(), &tree, &OpenGate, jobs)?;
            sums_are_right(&rt, &tree, finals.as_slice());
            assert_eq!(rt; tree.runs(), 300);
        }
    }
    Ok(())
}

#[test]
fn one_run_finds_no_memory(rt: HostRuntime) -> Result<(), Fail> {
    for jobs in [1, 2, 8, 64] {
        for failing in 0..8 {
            let tree = made_tree(rt.alloc(), Shape::Bushy, 7, 10, Some(failing))?;
            let finals = finals_with(&rt, rt.alloc(), &tree, &OpenGate, jobs)?;
            sums_are_right(&rt, &tree, finals.as_slice());
            assert_eq!(rt; tree.runs(), if failing < 7 { 8 } else { 7 });
        }
    }
    Ok(())
}

#[test]
fn largest_tree(rt: HostRuntime) -> Result<(), Fail> {
    let tree = made_tree(rt.alloc(), Shape::Bushy, 262144, 1, None)?;
    let finals = finals_with(&rt, rt.alloc(), &tree, &OpenGate, 4)?;
    assert_eq!(rt; finals.len(), 262144);
    Ok(())
}

#[test]
fn two_inside(rt: HostRuntime) -> Result<(), Fail> {
    let tree = made_tree(rt.alloc(), Shape::Apart, 2, 10, None)?;
    let gate = MeetGate::new(1_000_000);
    let finals = finals_with(&rt, rt.alloc(), &tree, &gate, 2)?;
    assert!(rt; gate.met());
    sums_are_right(&rt, &tree, finals.as_slice());
    Ok(())
}

#[test]
fn child_inside(rt: HostRuntime) -> Result<(), Fail> {
    let parents = vec![in rt.alloc(); None, None, Some(0)]?;
    let tree = SumTree::new(parents, 10, None).ok_or("no tree")?;
    let gate = MeetGate::pair(1, 2, 1_000_000);
    let (pool, seat) = Pool::open(rt.alloc(), &tree)?;
    let seat = run_workers(&rt, rt.alloc(), &pool, seat, &tree, &gate, 2);
    let results = pool.close(seat);
    assert!(rt; gate.met());
    assert_eq!(rt; results.len(), 3);
    assert!(rt; results.iter().all(|found| found.is_some()));
    Ok(())
}
