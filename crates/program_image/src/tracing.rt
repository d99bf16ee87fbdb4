//! The traces of a program.

ghost use Rattle.std.specs.Prelude.{◌≡◌, ◌≤◌, true, None, IfOk, OnOk, IfErr};
ghost use Rattle.ob_types.specs.WellFormed.{well_formed};
ghost use Rattle.ssa_lowered.specs.Limits.{limit_of};
ghost use Rattle.compiled_runs.specs.Compiled.{flows_of};
ghost use Rattle.trace_build.specs.Traces.{traces_in};
ghost use Rattle.trace_report.specs.Reports.{IsReport};
ghost use Rattle.program_image.specs.Faults.{TellsOfTraces};
ghost use Rattle.program_image.specs.Limits.{most_traces};

use crate::fault::{ProgramFault, of_lowering, whole_limit};
use crate::sizes::are_short;
use back_end::{Choice, select_all};
use ob_types::Program;
use ssa_build::{LoweredProgram, lower_with_tables};
use std::alloc::Global;
use trace_report::trace_report;

/// How many traces there are at most.
const MOST_TRACES: usize = 262_144;

/// The lines that tell the traces of a well-formed program's procedures, by the builder and the policy that are chosen. A program
/// is refused as it is for its image, but that its code is not made, and so never too long.
pub fn program_traces(
    alloc: Global,
    choice: &Choice,
    program: &Program,
) -> Result<Vec<u8>, ProgramFault>
    requires well_formed { well_formed program.now ≡ true }
    ensures report { IfOk result (λ lines. IsReport choice.now 0 (flows_of program.now) lines.items) }
    ensures within { OnOk result (limit_of program.now ≡ None) }
    ensures few { OnOk result (traces_in choice.now.builder (flows_of program.now) ≤ most_traces) }
    ensures limit { IfErr result (TellsOfTraces choice.now program.now) }
{
    let made = match lower_with_tables(alloc, program) {
        Ok(made) => made,
        Err(fault) => return Err(of_lowering(fault)),
    };
    let LoweredProgram { procedures, .. } = made;
    if !are_short(procedures.as_slice()) {
        return Err(ProgramFault::Memory);
    }
    let Ok(flows) = select_all(alloc, procedures) else {
        return Err(ProgramFault::Memory);
    };
    let Ok(report) = trace_report(alloc, choice, flows.as_slice()) else {
        return Err(ProgramFault::Memory);
    };
    if report.traces > MOST_TRACES {
        return Err(whole_limit(57));
    }
    Ok(report.lines)
}
