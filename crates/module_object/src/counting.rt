//! What stands before a module.

ghost use Rattle.std.specs.Prelude.{◌≡◌, ◌<◌, ◌≤◌, length, IfOk, IfErr};
ghost use Rattle.trace_build.specs.Traces.{traces_in};
ghost use Rattle.planned_image.specs.trace_work.declared.fault.WorkFault.TheVariants.{Traces};
ghost use Rattle.module_object.specs.Objects.{before_module};

use lir_core::Flow;
use ob_types::Procedure;
use planned_image::WorkFault;
use std::alloc::Global;
use trace_build::{Builder, build};

/// How many traces a program has at most.
const MOST_TRACES: usize = 262_144;

/// How many procedures stand before the first one of the module with this number.
pub(crate) fn before_module(number: usize, procedures: &[Procedure]) -> usize
    ensures is { result ≡ before_module number procedures.now }
    ensures within { result ≤ length procedures.now }
{
    for (at, procedure) in procedures.iter().enumerate() {
        if procedure.module as usize == number {
            return at;
        }
    }
    procedures.len()
}

/// How many traces a builder gives to flows. `Traces` comes exactly where there are over 262,144. Takes the time of the cut, flow by
/// flow, and keeps none.
pub(crate) fn count_traces(
    alloc: Global,
    builder: Builder,
    flows: &[Flow],
) -> Result<u32, WorkFault>
    ensures count { IfOk result (λ count. count ≡ traces_in builder flows.now) }
    ensures few { IfOk result (λ count. count ≤ 262144) }
    ensures limit { IfErr result (λ fault. fault ≡ Traces → 262144 < traces_in builder flows.now) }
{
    let mut left = MOST_TRACES;
    for flow in flows {
        let traces = build(alloc, builder, flow)?;
        if traces.len() > left {
            return Err(WorkFault::Traces);
        }
        left -= traces.len();
    }
    Ok((MOST_TRACES - left) as u32)
}
