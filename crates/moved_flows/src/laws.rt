//! What alike procedures have in common.

ghost use Rattle.std.specs.Prelude.{◌≡◌, ℕ, List, map, true};
ghost use Rattle.ob_types.specs.WellFormed.{well_formed};
ghost use Rattle.ob_types.specs.declared.program.Program.{Program};
ghost use Rattle.ssa_core.specs.declared.procedure.Proc.{Proc};
ghost use Rattle.ssa_lowered.specs.Lowered.{lowered};
ghost use Rattle.lir_core.specs.declared.flow.Flow.{Flow};
ghost use Rattle.a64_select.specs.Selected.{selected};
ghost use Rattle.trace_build.specs.declared.builder.Builder.{Builder};
ghost use Rattle.trace_build.specs.Traces.{traces_in};
ghost use Rattle.moved_code.specs.Procedures.{AreAlikeProcs};
ghost use Rattle.moved_lowering.specs.Starts.{HasStart};
ghost use Rattle.moved_data.specs.Alike.{AreAlike};
ghost use Rattle.moved_flows.specs.Flows.{AllAlike, AreAlikeFirst};

/// Procedures that differ in the places of data alone have flows that differ in these alone.
pub fn alike_procedures_select_alike()
    ensures { (p q : Proc) → AreAlikeProcs p q → AreAlike (selected p) (selected q) }
{}

/// Where the form of a well-formed program is the start of another's, its flows are the first ones of the other's but for the places
/// of data.
pub fn starts_have_alike_flows()
    ensures { (p q : Program) → well_formed p ≡ true → well_formed q ≡ true → HasStart p q
        → AreAlikeFirst (map selected (lowered p)) (map selected (lowered q)) }
{}

/// Flows that are alike one for one have as many traces by a builder.
pub fn alike_flows_have_one_count()
    ensures { (builder : Builder) (fs gs : List Flow) → AllAlike fs gs → traces_in builder fs ≡ traces_in builder gs }
{}
