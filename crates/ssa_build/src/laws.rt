//! What it says of a program's data that no limit is passed.

ghost use Rattle.std.specs.Prelude.{◌≡◌, ◌≤◌, length, None};
ghost use Rattle.ob_types.specs.declared.program.Program.{Program};
ghost use Rattle.ssa_lowered.specs.Limits.{limit_of, global_cells, constant_cells};

/// A program that passes no limit has at most 4,096 procedures, 1,048,576 cells of globals and 262,144 cells of constants.
pub fn data_is_within_limits()
    ensures procedures { (p : Program) → limit_of p ≡ None → length p.procedures ≤ 4096 }
    ensures globals { (p : Program) → limit_of p ≡ None → global_cells p ≤ 1048576 }
    ensures constants { (p : Program) → limit_of p ≡ None → constant_cells p ≤ 262144 }
{}
