//! The desk by one thread, and both submitters at work.

use batch_serve::{Desk, Put, Runner, Ticket, serve};
use memory_devices::MeetGate;
use outside::{Gate, Memory, OpenGate};
use std::alloc::Global;
use std::process::Abort;
use std::sync::Wait;
use std::test::*;
use std::thread::Threads;

struct Doubles;

impl Runner for Doubles {
    ghost use Rattle.std.specs.Prelude.{◌≡◌, ◌*◌};

    type Job = u32;

    type Answer = u64;

    ghost is_answer = { λ runner job answer. answer ≡ 2 * job };

    fn run<R: Threads + Wait + Sync>(
        &self,
        _rt: &R,
        _alloc: Global,
        job: &u32,
    ) -> Result<u64, Memory> {
        Ok(*job as u64 * 2)
    }
}

// Serves so many jobs of both: those from 0 on, and those from 5,000 on.
fn served<G: Gate, R: Threads + Wait + Sync>(
    rt: &R,
    alloc: Global,
    gate: &G,
    counts: (u32, u32),
    room: usize,
) -> Result<(Vec<u64>, Vec<u64>), Memory> {
    let mut first = Vec::new(alloc);
    for job in 0..counts.0.min(1024) {
        first.push(job)?;
    }
    let mut second = Vec::new(alloc);
    for job in 0..counts.1.min(1024) {
        second.push(job + 5000)?;
    }
    if first.len() > 1024 || second.len() > 1024 {
        return Err(Memory);
    }
    serve(rt, alloc, &Doubles, gate, first, second, room.clamp(1, 64))
}

#[test]
fn a_desk_of_room_one(rt: HostRuntime) -> Result<(), Fail> {
    let (desk, mut first, mut second, mut taker) = Desk::open(rt.alloc(), 1)?;
    assert_eq!(rt; first.put(&rt, &desk), Put::Put);
    assert_eq!(rt; second.put(&rt, &desk), Put::Full);
    assert_eq!(rt;
        taker.take(&rt, &desk),
        Some(Ticket {
            sender: 0,
            index: 0
        })
    );
    assert_eq!(rt; taker.take(&rt, &desk), None);
    assert_eq!(rt; desk.close(first, second, taker), [1, 0]);
    Ok(())
}

#[test]
fn two_senders(rt: HostRuntime) -> Result<(), Fail> {
    let gate = MeetGate::new(1000000);
    let (first, second) = served(&rt, rt.alloc(), &gate, (1, 1), 4)?;
    assert!(rt; gate.met());
    assert_eq!(rt; first.as_slice(), [0].as_slice());
    assert_eq!(rt; second.as_slice(), [10000].as_slice());
    Ok(())
}

#[test]
fn many_jobs(rt: HostRuntime) -> Result<(), Fail> {
    for room in [1, 2, 64] {
        for counts in [(0, 0), (3, 0), (0, 3), (1024, 1024), (7, 500)] {
            let (first, second) = served(&rt, rt.alloc(), &OpenGate, counts, room)?;
            assert_eq!(rt; first.len() as u64, counts.0 as u64);
            assert_eq!(rt; second.len() as u64, counts.1 as u64);
            for (i, answer) in first.iter().enumerate() {
                assert_eq!(rt; *answer, i as u64 * 2);
            }
            for (i, answer) in second.iter().enumerate() {
                assert_eq!(rt; *answer, (i as u64 + 5000) * 2);
            }
        }
    }
    Ok(())
}
