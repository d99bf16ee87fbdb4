//! The plain result for a small flow; what is wanted is what another program gives.

use global_live::live;
use lir_core::{Flow, Items, Leave, Line, Lir, Node, Numbers, Places, Template, Trace};
use outside::Memory;
use simple_policies::plain::*;
use std::alloc::{AllocError, Global};
use std::test::Fail;

fn node(
    alloc: Global,
    params: &[u32],
    lirs: Vec<Lir>,
    end: Leave,
    preds: &[u32],
) -> Result<Node, AllocError> {
    Ok(Node {
        params: Numbers::from_slice(alloc, params)?,
        lirs: Items::from_vec(lirs),
        end,
        freq: 1,
        preds: Numbers::from_slice(alloc, preds)?,
        enter: None,
    })
}

fn jump(alloc: Global, to: u32, args: &[u32]) -> Result<Leave, AllocError> {
    Ok(Leave::Jump {
        to,
        args: Numbers::from_slice(alloc, args)?,
    })
}

// A sum of two values.
fn sum(alloc: Global) -> Result<Lir, AllocError> {
    Ok(Lir {
        template: Template::Add,
        uses: Numbers::from_slice(alloc, &[2, 3])?,
        def: Some(4),
        call: false,
    })
}

// A call with one argument.
fn call(alloc: Global) -> Result<Lir, AllocError> {
    Ok(Lir {
        template: Template::Call(1),
        uses: Numbers::from_slice(alloc, &[2])?,
        def: Some(5),
        call: true,
    })
}

fn first(alloc: Global) -> Result<Node, AllocError> {
    let end = jump(alloc, 1, &[0, 1])?;
    node(alloc, &[0, 1], Vec::new(alloc), end, &[])
}

fn second(alloc: Global) -> Result<Node, AllocError> {
    let test = Leave::Branch {
        cond: 0,
        a: 2,
        b: 3,
        yes: 2,
        no: 3,
    };
    node(alloc, &[2, 3], Vec::new(alloc), test, &[0, 2])
}

fn third(alloc: Global) -> Result<Node, AllocError> {
    let lirs = vec![in alloc; sum(alloc)?]?;
    let end = jump(alloc, 1, &[3, 4])?;
    node(alloc, &[], lirs, end, &[1])
}

fn fourth(alloc: Global) -> Result<Node, AllocError> {
    let lirs = vec![in alloc; call(alloc)?]?;
    node(alloc, &[], lirs, Leave::Return(Some(5)), &[1])
}

// Node 2 goes back to node 1 with its parameters exchanged, one of them changed; node 3 calls with one of them.
fn exchanging(alloc: Global) -> Result<Flow, AllocError> {
    let mut nodes = Vec::new(alloc);
    nodes.push(first(alloc)?)?;
    nodes.push(second(alloc)?)?;
    nodes.push(third(alloc)?)?;
    nodes.push(fourth(alloc)?)?;
    Ok(Flow {
        nodes: Items::from_vec(nodes),
        values: 6,
        args: 2,
        counted: true,
        local_cells: 0,
        local_bytes: 0,
    })
}

fn push_places(text: &mut String, places: &Items<Places>) -> Result<(), AllocError> {
    for places in places.as_slice() {
        write!(
            text,
            " {:?} {:?},",
            places.regs.len(),
            places.homed.as_slice()
        )?;
    }
    Ok(())
}

fn push_line(text: &mut String, line: &Line) -> Result<(), AllocError> {
    match line {
        Line::Lir(index) => write!(text, " lir {index}"),
        Line::Store { reg, value } => write!(text, " store {reg} {value}"),
        Line::Load { reg, value } => write!(text, " load {reg} {value}"),
        Line::Moves(moves) => write!(text, " moves {:?}", moves.as_slice()),
        Line::Result(reg) => write!(text, " result {reg}"),
        Line::Target(place) => write!(text, " target {place:?}"),
    }
}

fn text(alloc: Global, out: &TraceOut) -> Result<String, AllocError> {
    let mut text = String::from_str(alloc, "starts")?;
    push_places(&mut text, &out.starts)?;
    text.push_str(" ends")?;
    push_places(&mut text, &out.ends)?;
    text.push_str(" lines")?;
    for lines in out.lines.as_slice() {
        for line in lines.as_slice() {
            push_line(&mut text, line)?;
        }
        text.push_str(",")?;
    }
    text.push_str(" regs")?;
    for regs in out.regs.as_slice() {
        write!(&mut text, " {:?}", regs.as_slice())?;
    }
    Ok(text)
}

fn plain_text(alloc: Global, nodes: &[u32]) -> Result<String, Memory> {
    let flow = exchanging(alloc)?;
    let live = live(alloc, &flow)?;
    let trace = Trace {
        nodes: Items::from_slice(alloc, nodes)?,
    };
    let out = plain(
        alloc,
        &TraceIn {
            flow: &flow,
            live: &live,
            trace: &trace,
            number: 7,
            regs: 4,
            from: None,
        },
    )?;
    Ok(text(alloc, &out)?)
}

#[test]
fn a_loop(rt: HostRuntime) -> Result<(), Fail> {
    let text = plain_text(rt.alloc(), &[0, 1, 2])?;
    let wanted =
        "starts 4 [0, 1], 4 [2, 3], 4 [2, 3], ends 4 [0, 1], 4 [2, 3], 4 [3, 4], lines, load 0 2 load 1 3, load 0 2 load 1 3 lir 0 store 0 4, regs [] [0, 1] [0, 1, 0]";
    assert_eq!(rt; text.as_str(), wanted);
    Ok(())
}

#[test]
fn a_call(rt: HostRuntime) -> Result<(), Fail> {
    let text = plain_text(rt.alloc(), &[3])?;
    let wanted =
        "starts 4 [2], ends 4 [5], lines moves [Move { to: Reg(0), from: Home(2) }] lir 0 store 0 5 load 0 5, regs [0]";
    assert_eq!(rt; text.as_str(), wanted);
    Ok(())
}
