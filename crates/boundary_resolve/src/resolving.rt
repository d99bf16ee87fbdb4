//! A procedure's code in lines.

ghost use Rattle.std.specs.Prelude.{◌≡◌, ℕ, IfOk};
ghost use Rattle.boundary_resolve.specs.Placing.{placed_of};
ghost use Rattle.boundary_resolve.specs.Edges.{AreSound};

use crate::code::Code;
use crate::code_line::CodeLine;
use crate::seats::seats;
use lir_core::{Flow, Items, Line, Places, Trace, TraceOut};
use outside::Memory;
use std::alloc::Global;

/// The code of a flow that is cut into traces, each with a sound result, in lines: what allocators wrote, and the moves of
/// every edge. Takes n log n for the lines, and for the places and arguments of all nodes.
pub fn resolve(
    alloc: Global,
    flow: &Flow,
    traces: &[Trace],
    outs: &[TraceOut],
) -> Result<Vec<CodeLine>, Memory>
    ensures { (k : ℕ) → AreSound k flow.now traces.now outs.now → IfOk result (λ placed. placed.items ≡ placed_of flow.now traces.now outs.now) }
{
    let code = Code {
        flow,
        outs,
        seats: seats(alloc, traces)?,
        nowhere: Places {
            regs: Items::new(alloc),
            homed: Items::new(alloc),
        },
    };
    let mut placed = Vec::with_capacity(alloc, room(outs))?;
    let mut moves = Vec::new(alloc);
    code.push_entry(alloc, &mut placed, &mut moves)?;
    for trace in traces {
        code.push_nodes(alloc, &mut placed, &mut moves, trace.nodes.as_slice())?;
    }
    Ok(placed)
}

// Room for the code of these results: their lines, where each node begins and ends, and a step for it (measured).
fn room(outs: &[TraceOut]) -> usize {
    let mut count = 0usize;
    for out in outs {
        count = count.saturating_add(room_of_nodes(out.lines.as_slice()));
    }
    count
}

fn room_of_nodes(nodes: &[Items<Line>]) -> usize {
    let mut count = 0usize;
    for lines in nodes {
        count = count.saturating_add(lines.len()).saturating_add(3);
    }
    count
}
