//! A tree of sums: a `Work` whose final results are known, for tests and measurements of the pool.
//!
//! It takes the parent of each trace and a number of rounds. A trace's own number is made by so many rounds, each of
//! which depends on the one before; its final result is the sum of the numbers from its root down to it, modulo 2^64.
//! The hint of a trace is its parent's final result. A tree can be told to answer `Memory` at one of its runs.
#![tactic(auto)]

ghost use Rattle.std.specs.Prelude.{◌≡◌, ℕ, ◌+◌, ◌<◌, ◌≤◌, ◌↔◌, length, IsSome, IfSome, Some};
ghost use mathlib.Core.Option.{some};
ghost use lib.ListN.{get_elem?};
ghost use Rattle.pool_core.specs.Tree.{IsTree};
ghost use Rattle.sum_tree.specs.Values.{mixed, path_sum};

use outside::Memory;
use pool_core::{Work, is_tree};
use std::alloc::Global;
use std::sync::atomic::{AtomicU64, Ordering};

/// The most traces that a pool takes.
pub const MOST_TRACES: usize = 262144;

/// Traces by their parents, and how many rounds each takes.
#[derive(Drop)]
pub struct SumTree {
    pub parents: Vec<Option<u32>>,
    pub rounds: u32,
    failing: Option<u64>,
    runs: AtomicU64,
    pub ghost tree: { IsTree parents.items },
    pub ghost small: { length parents.items ≤ 262144 },
}

impl SumTree {
    /// A tree of these traces, where each parent's number is below its child's and there are few enough. With a number
    /// in `failing`, the run of that number, counted from 0, finds no memory.
    pub fn new(parents: Vec<Option<u32>>, rounds: u32, failing: Option<u64>) -> Option<SumTree>
        ensures some { IsSome result ↔ ((length parents.items ≤ 262144) × IsTree parents.items) }
        ensures parents { IfSome result (λ t. t.parents.items ≡ parents.items) }
        ensures rounds { IfSome result (λ t. t.rounds ≡ rounds) }
    {
        if parents.len() > MOST_TRACES || !is_tree(parents.as_slice()) {
            return None;
        }
        Some(SumTree {
            parents,
            rounds,
            failing,
            runs: AtomicU64::new(0),
        })
    }

    /// How many runs there were.
    pub fn runs(&self) -> u64 {
        self.runs.load(Ordering::SeqCst)
    }
}

// The trace's own number.
fn own(rounds: u32, trace: u32) -> u64
    ensures { result ≡ mixed rounds trace }
{
    let mut value = trace as u64;
    for _ in 0..rounds {
        value = value
            .wrapping_mul(6364136223846793005)
            .wrapping_add(1442695040888963407);
    }
    value
}

impl Work for SumTree {
    type Done = u64;

    type Hint = u64;

    ghost parents = { λ t. t.parents.items };

    ghost is_final = { λ t trace d. d ≡ path_sum t.parents.items (mixed t.rounds) trace };

    ghost is_hint = { λ t trace h. (p : ℕ) × (get_elem? t.parents.items trace ≡ some (Some p)) × (h ≡ path_sum t.parents.items (mixed t.rounds) p) };

    fn count(&self) -> u32 {
        self.parents.len() as u32
    }

    fn parent(&self, trace: u32) -> Option<u32> {
        self.parents[trace as usize]
    }

    fn gate_number(&self, trace: u32) -> u32 {
        trace
    }

    fn run<'a>(&'a self, alloc: Global, trace: u32, hint: Option<&'a u64>) -> Result<u64, Memory> {
        let _ = alloc;
        if Some(self.runs.fetch_add(1, Ordering::SeqCst)) == self.failing {
            return Err(Memory);
        }
        let own = own(self.rounds, trace);
        match hint {
            None => Ok(own),
            Some(above) => Ok(above.wrapping_add(own)),
        }
    }

    fn hint(&self, alloc: Global, done: &u64, child: u32) -> Result<u64, Memory> {
        let _ = (alloc, child);
        Ok(*done)
    }
}
