//! Totals of final results.

use outside::{Memory, OpenGate};
use std::alloc::Global;
use std::sync::Wait;
use std::thread::Threads;
use sum_tree::SumTree;
use trace_pool::final_results;

/// The sum of all final results modulo 2^64, which as many workers find as `jobs` says, at least 1 and at most 64.
pub fn total_with<R: Threads + Wait + Sync>(
    rt: &R,
    alloc: Global,
    tree: &SumTree,
    jobs: u32,
) -> Result<u64, Memory> {
    let finals = final_results(rt, alloc, tree, &OpenGate, jobs.clamp(1, 64))?;
    Ok(total(finals.as_slice()))
}

/// Their sum modulo 2^64.
pub fn total(numbers: &[u64]) -> u64 {
    let mut total = 0u64;
    for number in numbers {
        total = total.wrapping_add(*number);
    }
    total
}
