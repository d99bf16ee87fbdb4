//! Notes of the smallest module, as another program writes them, and verdicts over these and over a large flow.

use crate::choices::tests;
use alloc_audit::{Verdict, audit};
use alloc_choice::{Builder, Choice, Policy};
use lir_core::{Flow, Items, Leave, Node, Numbers, Trace};
use outside::{Memory, OpenGate};
use std::alloc::{AllocError, Global};
use std::sync::Wait;
use std::test::Fail;
use std::thread::Threads;
use trace_build::build;
use trace_notes::{read_notes, write_notes};
use trace_pool::final_results;
use trace_work::TraceWork;

// The notes of `MODULE E; END E.` with 16 registers, and a number for what the first has at the start.
fn notes(alloc: Global, held: u32) -> Result<Vec<u8>, AllocError> {
    let mut numbers: [u32; 44] = [0; 44];
    for one in [0, 2, 21, 40, 42] {
        numbers[one] = 1;
    }
    numbers[3] = 16;
    numbers[4] = held;
    numbers[22] = 16;
    let mut bytes = Vec::new(alloc);
    bytes.extend_from_slice(b"TRC64NOT")?;
    for number in numbers {
        bytes.extend_from_slice(&number.to_le_bytes())?;
    }
    Ok(bytes)
}

// Its one procedure.
fn smallest(alloc: Global) -> Result<Flow, AllocError> {
    let body = Node {
        params: Numbers::new(alloc),
        lirs: Items::new(alloc),
        end: Leave::Return(None),
        freq: 1 << 20,
        preds: Numbers::new(alloc),
        enter: None,
    };
    Ok(Flow {
        nodes: Items::from_vec(vec![in alloc; body]?),
        values: 0,
        args: 0,
        counted: false,
        local_cells: 0,
        local_bytes: 0,
    })
}

// The verdict over these notes, if they are read and written back as the same bytes.
fn verdict(alloc: Global, held: u32) -> Result<Option<Verdict>, Memory> {
    let bytes = notes(alloc, held)?;
    if bytes.len() != 184 {
        return Ok(None);
    }
    let Ok(outs) = read_notes(alloc, bytes.as_slice()) else {
        return Ok(None);
    };
    let Ok(written) = write_notes(alloc, outs.as_slice()) else {
        return Ok(None);
    };
    if written.as_slice() != bytes.as_slice() {
        return Ok(None);
    }
    let flows = [smallest(alloc)?];
    let trace = Trace {
        nodes: Items::from_slice(alloc, &[0])?,
    };
    let cuts = [vec![in alloc; trace]?];
    Ok(Some(audit(alloc, &flows, &cuts, 16, outs.as_slice())?))
}

#[test]
fn smallest_notes(rt: HostRuntime) -> Result<(), Fail> {
    let sound = verdict(rt.alloc(), 0)?;
    assert!(rt; sound == Some(Verdict::Sound));
    let unsound = Verdict::Unsound {
        trace: 0,
        node: 0,
        line: 0,
    };
    let changed = verdict(rt.alloc(), 1)?;
    assert!(rt; changed == Some(unsound));
    Ok(())
}

// The verdict over the results of a large flow.
fn large<R: Threads + Wait + Sync>(rt: &R, alloc: Global, policy: Policy) -> Result<bool, Memory> {
    let choice = Choice {
        policy,
        builder: Builder::Bi,
        regs: 4,
        jobs: 1,
    };
    let flows = [tests(alloc)?];
    let cuts = [build(alloc, choice.builder, &flows[0])?];
    let Ok(work) = TraceWork::new(alloc, &choice, 0, &flows) else {
        return Err(Memory);
    };
    let outs = final_results(rt, alloc, &work, &OpenGate, choice.jobs)?;
    Ok(audit(alloc, &flows, &cuts, choice.regs, outs.as_slice())? == Verdict::Sound)
}

#[test]
fn large_flow_by_mixed(rt: HostRuntime) -> Result<(), Fail> {
    let sound = large(&rt, rt.alloc(), Policy::Mixed)?;
    assert!(rt; sound);
    Ok(())
}

#[test]
fn large_flow_by_plain(rt: HostRuntime) -> Result<(), Fail> {
    let sound = large(&rt, rt.alloc(), Policy::Plain)?;
    assert!(rt; sound);
    Ok(())
}
