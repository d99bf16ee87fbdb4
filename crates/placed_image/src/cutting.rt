//! Flows in traces.

ghost use Rattle.std.specs.Prelude.{◌≡◌, ◌<◌, ◌≤◌, map, All, IfOk, IfErr};
ghost use Rattle.lir_core.specs.Flows.{IsValidFlow};
ghost use Rattle.trace_build.specs.Traces.{traces_in};
ghost use Rattle.trace_work.specs.declared.fault.WorkFault.TheVariants.{Traces};
ghost use Rattle.placed_image.specs.Cutting.{AreCutBy};

use lir_core::{Flow, Trace};
use std::alloc::Global;
use trace_build::{Builder, build};
use trace_work::WorkFault;

/// How many traces flows have at most.
const MOST_TRACES: usize = trace_work::MOST_TRACES;

/// The traces of each flow by a builder, numbered in this order through all flows. `Traces` comes exactly where there are over
/// 262,144. Takes the time of the cut, flow by flow.
pub fn cut_flows(
    alloc: Global,
    builder: Builder,
    flows: &[Flow],
) -> Result<Vec<Vec<Trace>>, WorkFault>
    ensures cut { All IsValidFlow flows.now → IfOk result (λ cuts. AreCutBy builder flows.now (map (λ v. v.items) cuts.items)) }
    ensures few { IfOk result (λ cuts. traces_in builder flows.now ≤ 262144) }
    ensures limit { IfErr result (λ fault. fault ≡ Traces → 262144 < traces_in builder flows.now) }
{
    let mut cuts = Vec::with_capacity(alloc, flows.len())?;
    let mut left = MOST_TRACES;
    for flow in flows {
        let traces = build(alloc, builder, flow)?;
        if traces.len() > left {
            return Err(WorkFault::Traces);
        }
        left -= traces.len();
        cuts.push(traces)?;
    }
    Ok(cuts)
}
