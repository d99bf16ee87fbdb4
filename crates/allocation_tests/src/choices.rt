//! The results of a large flow.

use alloc_choice::*;
use lir_core::{Items, Leave, Lir, Node, Numbers, Template};
use outside::{Memory, OpenGate};
use std::alloc::{AllocError, Global};
use std::sync::Wait;
use std::test::Fail;
use std::thread::Threads;
use trace_pool::final_results;
use trace_work::TraceWork;

// How many tests there are one behind the other.
const TESTS: u32 = 2000;

fn node(alloc: Global, lirs: Vec<Lir>, end: Leave, preds: &[u32]) -> Result<Node, AllocError> {
    Ok(Node {
        params: Numbers::new(alloc),
        lirs: Items::from_vec(lirs),
        end,
        freq: 1 << 20,
        preds: Numbers::from_slice(alloc, preds)?,
        enter: None,
    })
}

// A node of a test makes a value and compares it.
fn test(alloc: Global, number: u32) -> Result<Node, AllocError> {
    let made = Lir {
        template: Template::Const(7),
        uses: Numbers::from_slice(alloc, &[])?,
        def: Some(number),
        call: false,
    };
    let lirs = vec![in alloc; made]?;
    let first = number.saturating_mul(3);
    let end = Leave::Branch {
        cond: 0,
        a: number,
        b: number.saturating_sub(5),
        yes: first.saturating_add(1),
        no: first.saturating_add(2),
    };
    let before = [first.saturating_sub(2), first.saturating_sub(1)];
    if number == 0 {
        node(alloc, lirs, end, &[])
    } else {
        node(alloc, lirs, end, &before)
    }
}

// A node on an edge.
fn bare(alloc: Global, test: u32, to: u32) -> Result<Node, AllocError> {
    let args = Numbers::new(alloc);
    node(alloc, Vec::new(alloc), Leave::Jump { to, args }, &[test])
}

// Tests one behind the other, each with a node on each of its edges to the next.
pub(crate) fn tests(alloc: Global) -> Result<Flow, AllocError> {
    let mut nodes = Vec::new(alloc);
    for number in 0..TESTS {
        let first = number.saturating_mul(3);
        let next = first.saturating_add(3);
        nodes.push(test(alloc, number)?)?;
        nodes.push(bare(alloc, first, next)?)?;
        nodes.push(bare(alloc, first, next)?)?;
    }
    let last = TESTS.saturating_mul(3);
    let before = [last.saturating_sub(2), last.saturating_sub(1)];
    nodes.push(node(alloc, Vec::new(alloc), Leave::Return(Some(0)), &before)?)?;
    Ok(Flow {
        nodes: Items::from_vec(nodes),
        values: TESTS,
        args: 0,
        counted: false,
        local_cells: 0,
        local_bytes: 0,
    })
}

// How many traces are trivial, and whether all results name theirs.
fn trivial_and_named(
    choice: &Choice,
    flow: &Flow,
    traces: &[Trace],
    outs: &[TraceOut],
) -> (u32, bool) {
    let mut trivial: u32 = 0;
    let mut named = outs.len() == traces.len();
    for (i, trace) in traces.iter().enumerate() {
        if policy_of(choice, flow, trace) == Used::Trivial {
            trivial = trivial.saturating_add(1);
        }
        named = named && outs.get(i).is_some_and(|out| out.trace as usize == i);
    }
    (trivial, named)
}

fn passes<R: Threads + Wait + Sync>(
    rt: &R,
    alloc: Global,
    policy: Policy,
    wanted: u32,
) -> Result<bool, Memory> {
    let choice = Choice {
        policy,
        builder: Builder::Bi,
        regs: 4,
        jobs: 2,
    };
    let flows = [tests(alloc)?];
    let Ok(work) = TraceWork::new(alloc, &choice, 0, &flows) else {
        return Err(Memory);
    };
    let outs = final_results(rt, alloc, &work, &OpenGate, choice.jobs)?;
    let Some(plan) = work.plans.as_slice().first() else {
        return Ok(false);
    };
    let found = trivial_and_named(&choice, plan.flow, plan.traces.as_slice(), outs.as_slice());
    Ok(found == (wanted, true))
}

// Of the nodes on edges those of one side are in the first trace, and the others are traces of their own.
#[test]
fn mixed(rt: HostRuntime) -> Result<(), Fail> {
    let passed = passes(&rt, rt.alloc(), Policy::Mixed, TESTS)?;
    assert!(rt; passed);
    Ok(())
}

#[test]
fn bottom_up(rt: HostRuntime) -> Result<(), Fail> {
    let passed = passes(&rt, rt.alloc(), Policy::BottomUp, TESTS)?;
    assert!(rt; passed);
    Ok(())
}

#[test]
fn plain(rt: HostRuntime) -> Result<(), Fail> {
    let passed = passes(&rt, rt.alloc(), Policy::Plain, 0)?;
    assert!(rt; passed);
    Ok(())
}
