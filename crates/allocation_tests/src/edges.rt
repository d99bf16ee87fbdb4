//! A loop whose parameters are swapped, with places given by hand; what is wanted is what another program says.

use boundary_resolve::*;
use lir_core::{Items, Leave, Lir, Node, Numbers, Template};
use outside::Memory;
use std::alloc::{AllocError, Global};
use std::test::Fail;

fn node(
    alloc: Global,
    params: &[u32],
    lirs: Vec<Lir>,
    end: Leave,
    preds: &[u32],
) -> Result<Node, AllocError> {
    Ok(Node {
        params: Numbers::from_slice(alloc, params)?,
        lirs: Items::from_vec(lirs),
        end,
        freq: 1,
        preds: Numbers::from_slice(alloc, preds)?,
        enter: None,
    })
}

fn jump(alloc: Global, to: u32, args: &[u32]) -> Result<Leave, AllocError> {
    Ok(Leave::Jump {
        to,
        args: Numbers::from_slice(alloc, args)?,
    })
}

// A sum of two values.
fn sum(alloc: Global) -> Result<Lir, AllocError> {
    Ok(Lir {
        template: Template::Add,
        uses: Numbers::from_slice(alloc, &[2, 3])?,
        def: Some(4),
        call: false,
    })
}

// A call with one argument.
fn call(alloc: Global) -> Result<Lir, AllocError> {
    Ok(Lir {
        template: Template::Call(1),
        uses: Numbers::from_slice(alloc, &[2])?,
        def: Some(5),
        call: true,
    })
}

fn first(alloc: Global) -> Result<Node, AllocError> {
    let end = jump(alloc, 1, &[0, 1])?;
    node(alloc, &[0, 1], Vec::new(alloc), end, &[])
}

fn second(alloc: Global) -> Result<Node, AllocError> {
    let test = Leave::Branch {
        cond: 0,
        a: 2,
        b: 3,
        yes: 2,
        no: 3,
    };
    node(alloc, &[2, 3], Vec::new(alloc), test, &[0, 2])
}

fn third(alloc: Global) -> Result<Node, AllocError> {
    let lirs = vec![in alloc; sum(alloc)?]?;
    let end = jump(alloc, 1, &[3, 4])?;
    node(alloc, &[], lirs, end, &[1])
}

fn fourth(alloc: Global) -> Result<Node, AllocError> {
    let lirs = vec![in alloc; call(alloc)?]?;
    node(alloc, &[], lirs, Leave::Return(Some(5)), &[1])
}

// Node 2 goes back to node 1 with its parameters exchanged, one of them changed; node 3 calls with one of them.
fn exchanging(alloc: Global) -> Result<Flow, AllocError> {
    let mut nodes = Vec::new(alloc);
    nodes.push(first(alloc)?)?;
    nodes.push(second(alloc)?)?;
    nodes.push(third(alloc)?)?;
    nodes.push(fourth(alloc)?)?;
    Ok(Flow {
        nodes: Items::from_vec(nodes),
        values: 6,
        args: 2,
        counted: true,
        local_cells: 0,
        local_bytes: 0,
    })
}

fn places(
    alloc: Global,
    first: Option<u32>,
    second: Option<u32>,
    homed: &[u32],
) -> Result<Places, AllocError> {
    Ok(Places {
        regs: Items::from_slice(alloc, &[first, second, None, None])?,
        homed: Items::from_slice(alloc, homed)?,
    })
}

fn three(
    alloc: Global,
    first: Places,
    second: Places,
    third: Places,
) -> Result<Items<Places>, AllocError> {
    Ok(Items::from_vec(vec![in alloc; first, second, third]?))
}

fn starts(alloc: Global) -> Result<Items<Places>, AllocError> {
    let first = places(alloc, Some(0), Some(1), &[])?;
    let second = places(alloc, Some(2), Some(3), &[])?;
    let third = places(alloc, Some(2), Some(3), &[])?;
    three(alloc, first, second, third)
}

fn ends(alloc: Global) -> Result<Items<Places>, AllocError> {
    let first = places(alloc, Some(0), Some(1), &[])?;
    let second = places(alloc, Some(2), Some(3), &[])?;
    let third = places(alloc, Some(4), Some(3), &[])?;
    three(alloc, first, second, third)
}

fn lines(alloc: Global) -> Result<Items<Items<Line>>, AllocError> {
    let last = Items::from_vec(vec![in alloc; Line::Lir(0)]?);
    let lines = vec![in alloc; Items::new(alloc), Items::new(alloc), last]?;
    Ok(Items::from_vec(lines))
}

// The loop: its values in the first two registers.
fn looping(alloc: Global) -> Result<TraceOut, AllocError> {
    let starts = starts(alloc)?;
    let ends = ends(alloc)?;
    Ok(TraceOut {
        trace: 0,
        starts,
        ends,
        lines: lines(alloc)?,
        regs: Items::new(alloc),
    })
}

// Behind the loop: one value, in its home.
fn leaving(alloc: Global) -> Result<TraceOut, AllocError> {
    let start = places(alloc, None, None, &[2])?;
    let end = places(alloc, Some(5), None, &[])?;
    let lines = Items::from_vec(vec![in alloc; Line::Lir(0)]?);
    Ok(TraceOut {
        trace: 1,
        starts: Items::from_vec(vec![in alloc; start]?),
        ends: Items::from_vec(vec![in alloc; end]?),
        lines: Items::from_vec(vec![in alloc; lines]?),
        regs: Items::new(alloc),
    })
}

fn text(alloc: Global, placed: &[CodeLine]) -> Result<String, AllocError> {
    let mut text = String::new(alloc);
    for line in placed {
        match line {
            CodeLine::Node(node) => write!(&mut text, "node {node}: ")?,
            CodeLine::Body(Line::Lir(index)) => write!(&mut text, "lir {index}, ")?,
            CodeLine::Body(_) => text.push_str("other, ")?,
            CodeLine::Edge(step) => write!(&mut text, "{step:?}, ")?,
            CodeLine::Leave(node) => write!(&mut text, "leave {node}; ")?,
        }
    }
    Ok(text)
}

fn trace(alloc: Global, nodes: &[u32]) -> Result<Trace, AllocError> {
    Ok(Trace {
        nodes: Items::from_slice(alloc, nodes)?,
    })
}

fn placed(alloc: Global) -> Result<Vec<CodeLine>, Memory> {
    let flow = exchanging(alloc)?;
    let traces = [trace(alloc, &[0, 1, 2])?, trace(alloc, &[3])?];
    let outs = [looping(alloc)?, leaving(alloc)?];
    resolve(alloc, &flow, &traces, &outs)
}

#[test]
fn an_exchange_on_the_way_back(rt: HostRuntime) -> Result<(), Fail> {
    let placed = placed(rt.alloc())?;
    let wanted =
        "node 0: leave 0; node 1: leave 1; node 2: lir 0, Save(Reg(0)), Copy { to: Reg(0), from: Reg(1) }, Restore(Reg(1)), leave 2; node 3: Copy { to: Home(2), from: Reg(0) }, lir 0, leave 3; ";
    assert_eq!(rt; text(rt.alloc(), placed.as_slice())?.as_str(), wanted);
    Ok(())
}
