//! How much stack the process has, as its system tells it.

use std::alloc::AllocGlobal;
use std::fs;
use std::rt::Files;

/// The least stack, in bytes, on which all that is legal was tried.
const LEAST: u64 = 1 << 20;

/// Whether the system tells that the process has less stack than the deepest texts want. Where it tells nothing, it has enough.
#[inline(never)]
pub fn is_short<R: Files + AllocGlobal>(rt: &R) -> bool {
    match fs::read_to_string(rt, "/proc/self/limits") {
        Ok(limits) => told(limits.as_str()).is_some_and(|size| size < LEAST),
        Err(_) => false,
    }
}

/// The bytes of stack that this table of a process's limits tells (`proc(5)`); none where it tells no number, as for a stack without
/// a limit.
fn told(limits: &str) -> Option<u64> {
    let row = limits
        .lines()
        .find_map(|line| line.strip_prefix("Max stack size"))?;
    row.split_whitespace().next()?.parse::<u64>().ok()
}
