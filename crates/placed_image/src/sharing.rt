//! What each flow has of all results, and its lines.

ghost use Rattle.std.specs.Prelude.{◌≡◌, take, drop, map, length, IfOk, OnOk};
ghost use Rattle.std.specs.Vec.Iter.{into_iter_items};
ghost use Rattle.placed_image.specs.Shares.{AreSharesOf, cuts_of};

use boundary_resolve::{CodeLine, resolve};
use lir_core::{Flow, Trace, TraceOut};
use outside::Memory;
use std::alloc::Global;
use std::vec::IntoIter;

/// The lines of each flow in the order of its code, and the results of its traces.
#[derive(Drop)]
pub(crate) struct Shares {
    pub(crate) parts: Vec<Vec<CodeLine>>,
    pub(crate) outs: Vec<Vec<TraceOut>>,
}

/// Gives each flow in turn the results of its traces, and makes its lines.
pub(crate) fn share_results(
    alloc: Global,
    flows: &[Flow],
    cuts: &[Vec<Trace>],
    outs: Vec<TraceOut>,
) -> Result<Shares, Memory>
    requires { length cuts.now ≡ length flows.now }
    ensures { IfOk result (AreSharesOf (cuts_of flows.now (map (λ v. v.items) cuts.now) outs.items)) }
{
    let mut shares = Shares {
        parts: Vec::with_capacity(alloc, flows.len())?,
        outs: Vec::with_capacity(alloc, flows.len())?,
    };
    let mut rest = outs.into_iter();
    for (at, flow) in flows.iter().enumerate() {
        let traces = cuts[at].as_slice();
        let own = next_results(alloc, &mut rest, traces.len())?;
        let lines = resolve(alloc, flow, traces, own.as_slice())?;
        shares.parts.push(lines)?;
        shares.outs.push(own)?;
    }
    Ok(shares)
}

/// The next so many results, or all that are left.
fn next_results(
    alloc: Global,
    rest: &mut IntoIter<TraceOut>,
    count: usize,
) -> Result<Vec<TraceOut>, Memory>
    ensures taken { IfOk result (λ own. own.items ≡ take count (into_iter_items rest.old)) }
    ensures left { OnOk result (into_iter_items rest.new ≡ drop count (into_iter_items rest.old)) }
{
    let mut own = Vec::with_capacity(alloc, count)?;
    for _ in 0..count {
        match rest.next() {
            Some(out) => own.push(out)?,
            None => return Ok(own),
        }
    }
    Ok(own)
}
