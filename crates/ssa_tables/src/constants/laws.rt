//! How many bytes a program's data has.

ghost use Rattle.std.specs.Prelude.{◌≡◌, ◌≤◌, ◌*◌, ◌%◌, ℕ, length};
ghost use Rattle.ob_types.specs.declared.program.Program.{Program};
ghost use Rattle.ssa_lowered.specs.Constants.{constants};
ghost use Rattle.ssa_lowered.specs.Data.{layout, globals_room};
ghost use Rattle.ssa_lowered.specs.Limits.{global_cells, constant_cells};

/// The constants have at most eight bytes for each of their cells, and end at a multiple of 8.
pub fn constants_are_counted()
    ensures few { (p : Program) (globals : ℕ) → length (constants p (layout p.types) globals) ≤ 8 * constant_cells p }
    ensures whole { (p : Program) (globals : ℕ) → length (constants p (layout p.types) globals) % 8 ≡ 0 }
{}

/// And so do the globals.
pub fn globals_are_counted()
    ensures few { (p : Program) → globals_room p (layout p.types) ≤ 8 * global_cells p }
    ensures whole { (p : Program) → globals_room p (layout p.types) % 8 ≡ 0 }
{}
