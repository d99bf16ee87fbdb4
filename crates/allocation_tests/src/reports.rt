//! Lines of a small flow.

use alloc_choice::{Choice, Policy};
use lir_core::{Flow, Items, Leave, Lir, Node, Numbers, Template};
use outside::Memory;
use std::alloc::Global;
use std::test::Fail;
use trace_build::Builder;
use trace_report::trace_report;

fn node(
    alloc: Global,
    lirs: Vec<Lir>,
    end: Leave,
    freq: u64,
    preds: &[u32],
) -> Result<Node, Memory> {
    Ok(Node {
        params: Numbers::new(alloc),
        lirs: Items::from_vec(lirs),
        end,
        freq,
        preds: Numbers::from_slice(alloc, preds)?,
        enter: None,
    })
}

fn jump(alloc: Global, to: u32) -> Leave {
    let args = Numbers::new(alloc);
    Leave::Jump { to, args }
}

// A test, whose second way runs eight times less often, and what follows both.
fn flow(alloc: Global) -> Result<Flow, Memory> {
    let made = Lir {
        template: Template::Const(7),
        uses: Numbers::from_slice(alloc, &[])?,
        def: Some(0),
        call: false,
    };
    let test = Leave::Nonzero {
        a: 0,
        yes: 1,
        no: 2,
    };
    let mut nodes = Vec::new(alloc);
    nodes.push(node(alloc, vec![in alloc; made]?, test, 1 << 20, &[])?)?;
    nodes.push(node(alloc, Vec::new(alloc), jump(alloc, 3), 1 << 20, &[0])?)?;
    nodes.push(node(alloc, Vec::new(alloc), jump(alloc, 3), 1 << 17, &[0])?)?;
    nodes.push(node(
        alloc,
        Vec::new(alloc),
        Leave::Return(None),
        1 << 20,
        &[1, 2],
    )?)?;
    Ok(Flow {
        nodes: Items::from_vec(nodes),
        values: 1,
        args: 0,
        counted: false,
        local_cells: 0,
        local_bytes: 0,
    })
}

#[test]
fn a_trace_has_a_line(rt: HostRuntime) -> Result<(), Fail> {
    let choice = Choice {
        policy: Policy::Mixed,
        builder: Builder::Bi,
        regs: 16,
        jobs: 1,
    };
    let flows = [flow(rt.alloc())?, flow(rt.alloc())?];
    let report = trace_report(rt.alloc(), &choice, &flows)?;
    let wanted =
        "0 0 1048576 - linear 0,1,3\n0 1 131072 0 trivial 2\n1 0 1048576 - linear 0,1,3\n1 1 131072 0 trivial 2\n";
    assert!(rt; report.lines.as_slice() == wanted.as_bytes());
    assert_eq!(rt; report.traces, 4);
    Ok(())
}
