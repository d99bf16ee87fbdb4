//! The traces above traces.

ghost use Rattle.std.specs.Prelude.{◌≡◌, length, map, All, IfOk};
ghost use Rattle.lir_core.specs.Flows.{IsValidFlow};
ghost use Rattle.kept_plans.specs.Above.{AreAllParents};

use lir_core::{Flow, Trace};
use outside::Memory;
use std::alloc::Global;
use trace_build::parents;

/// For each flow the trace above each of its traces, where there is one. Takes the time of `parents`, flow by flow.
pub fn all_parents(
    alloc: Global,
    flows: &[Flow],
    cuts: &[Vec<Trace>],
) -> Result<Vec<Vec<Option<u32>>>, Memory>
    requires { length cuts.now ≡ length flows.now }
    ensures { All IsValidFlow flows.now → IfOk result (λ above. AreAllParents flows.now (map (λ v. v.items) cuts.now) (map (λ v. v.items) above.items)) }
{
    let mut above = Vec::with_capacity(alloc, flows.len())?;
    for place in 0..flows.len() {
        let own = parents(alloc, &flows[place], cuts[place].as_slice())?;
        above.push(own)?;
    }
    Ok(above)
}
