//! The call.

ghost use Rattle.std.specs.Prelude.{◌≡◌, [], IfOk};
ghost use Rattle.lir_core.specs.Sound.{IsSound, EndsRise};
ghost use Rattle.walked_results.specs.Walked.{IsWalked};
ghost use Rattle.linear_scan.specs.Inputs.{case_of, hint_of, lent, IsInput};
ghost use Rattle.simple_policies.specs.trivial.Trivial.{trivial, trivial_start, IsTrivial};

use crate::trivial::living::{all_live, live_homes, live_registers};
use lir_core::{Items, Places, RegisterList, TraceIn, TraceOut};
use outside::Memory;
use std::alloc::{AllocError, Global};

/// The result for a trace that is trivial, with a hint or with none: it takes time in proportion to the hint's registers
/// and homed values, or to the flow's values where there is no hint.
pub fn trivial(alloc: Global, t: &TraceIn, hint: Option<&Places>) -> Result<TraceOut, Memory>
    ensures trivial { IfOk result (λ out. out ≡ trivial (case_of t.now) t.now.number t.now.trace.now.nodes (hint_of t.now.from (lent hint.entry))) }
    ensures walked { IsInput (case_of t.now) t.now.trace.now.nodes (hint_of t.now.from (lent hint.entry))
        → IsTrivial t.now.flow.now t.now.trace.now.nodes → IfOk result (IsWalked t.now.regs t.now.flow.now t.now.trace.now) }
    ensures sound { IsInput (case_of t.now) t.now.trace.now.nodes (hint_of t.now.from (lent hint.entry))
        → IsTrivial t.now.flow.now t.now.trace.now.nodes → IfOk result (IsSound t.now.regs t.now.flow.now t.now.trace.now) }
    ensures rises { IsInput (case_of t.now) t.now.trace.now.nodes (hint_of t.now.from (lent hint.entry))
        → IsTrivial t.now.flow.now t.now.trace.now.nodes → IfOk result EndsRise }
{
    let nodes = t.trace.nodes.as_slice();
    let mut out = empty(alloc, t.number);
    if nodes.is_empty() {
        return Ok(out);
    }
    out.starts.push(start(alloc, t, nodes[0], hint)?)?;
    out.ends.push(start(alloc, t, nodes[0], hint)?)?;
    out.lines.push(Items::new(alloc))?;
    out.regs.push(RegisterList::new(alloc))?;
    Ok(out)
}

fn empty(alloc: Global, number: u32) -> TraceOut
    ensures { result ≡ record { trace = number; starts = []; ends = []; lines = []; regs = [] } }
{
    TraceOut {
        trace: number,
        starts: Items::new(alloc),
        ends: Items::new(alloc),
        lines: Items::new(alloc),
        regs: Items::new(alloc),
    }
}

// Where a node starts, and ends.
fn start(alloc: Global, t: &TraceIn, node: u32, hint: Option<&Places>) -> Result<Places, AllocError>
    ensures { IfOk result (λ q. q ≡ trivial_start (case_of t.now) node (hint_of t.now.from (lent hint.entry))) }
{
    if t.from.is_some() {
        if let Some(q) = hint {
            return Ok(Places {
                regs: live_registers(alloc, t.live, node, q.regs.as_slice())?,
                homed: live_homes(alloc, t.live, node, q.homed.as_slice())?,
            });
        }
    }
    let none: Vec<Option<u32>> = vec![in alloc; None; t.regs as usize]?;
    Ok(Places {
        regs: Items::from_vec(none),
        homed: all_live(alloc, t.live, node, t.flow.values)?,
    })
}
