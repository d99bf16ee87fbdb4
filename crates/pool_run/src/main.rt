//! Runs a tree of sums on the pool.
//!
//! Without words it runs 100,000 small tasks with 1, 2 and 4 workers, and writes the sum of all final results each
//! time. With the words TRACES ROUNDS JOBS it runs so many traces of so many rounds with so many workers, and writes
//! the microseconds that it took, for `bench/pool.sh`.
#![tactic(auto)]

mod made;
mod running;
#[cfg(test)]
mod tests;

use made::{Shape, made_tree};
use running::total_with;
use std::env;
use std::time::Instant;

const TRACES: u32 = 100_000;

const ROUNDS: u32 = 100;

const USAGE: &str = "usage: pool_run [TRACES ROUNDS JOBS]";

#[derive(Clone, Copy)]
struct Wanted {
    traces: u32,
    rounds: u32,
    jobs: u32,
}

// The three numbers, where there are three.
fn read_words(traces: &str, rounds: &str, jobs: &str) -> Option<Wanted> {
    Some(Wanted {
        traces: traces.parse::<u32>().ok()?,
        rounds: rounds.parse::<u32>().ok()?,
        jobs: jobs.parse::<u32>().ok()?,
    })
}

fn main(rt: HostRuntime) -> Result<(), anyhow::Error> {
    let mut words = env::args(&rt)?;
    words.next();
    let (Some(traces), Some(rounds), Some(jobs)) = (words.next(), words.next(), words.next()) else {
        let tree = made_tree(rt.alloc(), Shape::Bushy, TRACES, ROUNDS, None)?;
        for jobs in [1, 2, 4] {
            let total = total_with(&rt, rt.alloc(), &tree, jobs)?;
            println!(rt; "{jobs}: {total}")?;
        }
        return Ok(());
    };
    let Some(wanted) = read_words(traces.as_str(), rounds.as_str(), jobs.as_str()) else {
        println!(rt; "{USAGE}")?;
        return Ok(());
    };
    let tree = made_tree(rt.alloc(), Shape::Bushy, wanted.traces, wanted.rounds, None)?;
    let start = Instant::now(&rt)?;
    let total = total_with(&rt, rt.alloc(), &tree, wanted.jobs)?;
    let elapsed = start.elapsed(&rt)?.as_micros();
    println!(rt; "{elapsed} us, total {total}")?;
    Ok(())
}
