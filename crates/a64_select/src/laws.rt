//! What selection keeps.

ghost use Rattle.std.specs.Prelude.{ℕ, List, map, flat_map, All};
ghost use Rattle.run_laws.specs.Runs.{Within};
ghost use Rattle.block_runs.specs.Points.{all_points};
ghost use Rattle.ssa_core.specs.declared.procedure.Proc.{Proc};
ghost use Rattle.ssa_core.specs.Procedures.{procedures};
ghost use Rattle.ssa_core.specs.Validity.{IsValid};
ghost use Rattle.lir_core.specs.Flows.{procedures as flow_procedures};
ghost use Rattle.a64_select.specs.Selected.{selected};
ghost use Rattle.a64_select.specs.Carrying.{flow_points, FlowsCarry};

/// The flows of valid procedures carry out, step by step, what the procedures do: each step by one, or an edge's by two,
/// and no point of a flow serves two points of its procedure.
pub fn selection_carries()
    ensures carries { (ps : List Proc) (code : ℕ → ℕ) → All IsValid ps → FlowsCarry ps code }
    ensures points { (ps : List Proc) → Within (all_points (flow_procedures (map selected ps))) (flat_map (flow_points (procedures ps)) (all_points (procedures ps))) }
{}
