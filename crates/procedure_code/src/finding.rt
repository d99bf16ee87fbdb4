//! The holes of operations.

ghost use Rattle.std.specs.Prelude.{◌≡◌, ◌<◌, ◌^◌, [], ◌∷◌, ◌++◌, map, OnOk};
ghost use Rattle.procedure_pieces.specs.Pieces.{op_holes};
ghost use Rattle.procedure_code.specs.Holes.{hole_in};

use crate::holes::{Hole, What};
use a64_instr::Reg;
use lir_core::Template;
use std::alloc::AllocError;

/// Appends the holes of an operation whose first word is word `at` of the piece.
pub fn push_holes(holes: &mut Vec<Hole>, at: u32, code: Template, rd: Reg) -> Result<(), AllocError>
    requires { at < 2 ^ 18 }
    ensures { OnOk result (map hole_in holes.new.items ≡ map hole_in holes.old.items ++ op_holes at code rd) }
{
    match code {
        Template::Call(procedure) => push(holes, at, What::Calls(procedure)),
        Template::Code(procedure) => {
            push(holes, at, What::Lower(procedure, rd))?;
            push(holes, at + 1, What::Upper(procedure, rd))
        }
        Template::Copy => push(holes, at, What::Copies),
        Template::Zero => push(holes, at, What::Zeros),
        Template::Compare => push(holes, at, What::Compares),
        _ => Ok(()),
    }
}

fn push(holes: &mut Vec<Hole>, at: u32, what: What) -> Result<(), AllocError>
    ensures { OnOk result (map hole_in holes.new.items ≡ map hole_in holes.old.items ++ hole_in (record { at = at; what = what }) ∷ []) }
{
    holes.push(Hole { at, what })?;
    Ok(())
}
