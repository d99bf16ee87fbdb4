//! The plain result for a trace.

ghost use Rattle.std.specs.Prelude.{◌≡◌, ℕ, ◌<◌, ◌≤◌, length, IfOk, OnOk};
ghost use Rattle.global_live.specs.Reading.{HasLive};
ghost use Rattle.lir_core.specs.Flows.{IsValidFlow, IsTrace, code_nodes};
ghost use Rattle.lir_core.specs.Sound.{IsSound, EndsRise};
ghost use Rattle.walked_results.specs.Walked.{IsWalked};
ghost use Rattle.simple_policies.specs.plain.Plain.{plain_of};
ghost use Rattle.simple_policies.specs.plain.Parts.{ArePushed};

use crate::plain::homed::{end, start};
use crate::plain::lines::Written;
use lir_core::{Items, Line, Places, RegisterList, TraceIn, TraceOut};
use outside::Memory;
use std::alloc::Global;
use value_sets::ValueSet;

/// The plain result for a trace: every value is in its home between operations. Takes time in proportion to the trace's
/// code, and for each of its nodes to the flow's values.
pub fn plain(alloc: Global, t: &TraceIn) -> Result<TraceOut, Memory>
    ensures result_is { IsTrace (code_nodes t.now.flow.now.nodes) t.now.trace.now.nodes
        → IfOk result (λ out. out ≡ plain_of t.now.regs t.now.flow.now t.now.live.now t.now.number t.now.trace.now.nodes) }
    ensures walked { IsValidFlow t.now.flow.now → HasLive t.now.flow.now t.now.live.now → IsTrace (code_nodes t.now.flow.now.nodes) t.now.trace.now.nodes → 4 ≤ t.now.regs
        → IfOk result (λ out. IsWalked t.now.regs t.now.flow.now t.now.trace.now out) }
    ensures sound { IsValidFlow t.now.flow.now → HasLive t.now.flow.now t.now.live.now → IsTrace (code_nodes t.now.flow.now.nodes) t.now.trace.now.nodes → 4 ≤ t.now.regs
        → IfOk result (λ out. IsSound t.now.regs t.now.flow.now t.now.trace.now out) }
    ensures rises { IsTrace (code_nodes t.now.flow.now.nodes) t.now.trace.now.nodes → IfOk result EndsRise }
{
    let count = t.trace.nodes.len();
    let mut rooms = Rooms::new(alloc);
    let mut parts = Parts {
        starts: Vec::with_capacity(alloc, count)?,
        ends: Vec::with_capacity(alloc, count)?,
        lines: Vec::with_capacity(alloc, count)?,
        regs: Vec::with_capacity(alloc, count)?,
    };
    for number in t.trace.nodes.as_slice() {
        parts.push(alloc, t, &mut rooms, *number)?;
    }
    let Parts {
        starts,
        ends,
        lines,
        regs,
    } = parts;
    Ok(TraceOut {
        trace: t.number,
        starts: Items::from_vec(starts),
        ends: Items::from_vec(ends),
        lines: Items::from_vec(lines),
        regs: Items::from_vec(regs),
    })
}

/// What is used again from node to node, so that a node takes memory for its results alone.
#[derive(Drop)]
struct Rooms {
    marks: ValueSet,
    written: Written,
}

impl Rooms {
    fn new(alloc: Global) -> Rooms {
        Rooms {
            marks: ValueSet::new(alloc),
            written: Written::new(alloc),
        }
    }
}

/// What is written for the nodes so far.
#[derive(Drop)]
struct Parts {
    starts: Vec<Places>,
    ends: Vec<Places>,
    lines: Vec<Items<Line>>,
    regs: Vec<RegisterList>,
}

impl Parts {
    fn push(
        &mut self,
        alloc: Global,
        t: &TraceIn,
        rooms: &mut Rooms,
        number: u32,
    ) -> Result<(), Memory>
        ensures { number < length t.now.flow.now.nodes → OnOk result (ArePushed t.now number self.old self.new) }
    {
        let Some(node) = t.flow.nodes.as_slice().get(number as usize) else {
            return Ok(());
        };
        let lines = rooms.written.write(alloc, node)?;
        self.starts
            .push(start(alloc, t, &mut rooms.marks, number, node)?)?;
        self.ends.push(end(alloc, t, &mut rooms.marks, &node.end)?)?;
        self.lines.push(Items::from_vec(lines))?;
        self.regs.push(RegisterList::from_slice(alloc, rooms.written.regs.as_slice())?)?;
        Ok(())
    }
}
