//! The image of a program that is used besides.

ghost use Rattle.std.specs.Prelude.{◌≡◌, true, IfOk, IfErr};
ghost use Rattle.ob_types.specs.WellFormed.{well_formed};
ghost use Rattle.trc_texts.specs.words.alloc_choice.Choice.{IsFitChoice};
ghost use Rattle.trc_texts.specs.words.program_image.Faults.{Tells};
ghost use Rattle.meaning_commands.specs.Programs.{IsImageOfProgram};

use image_form::Image;
use ob_types::Program;
use outside::Gate;
use std::alloc::Global;
use std::sync::Wait;
use std::thread::Threads;
use trc_texts::image_words::{Choice, ProgramFault, linked_program};

/// The image of a well-formed program by the builder, the policy and the registers that are chosen, the same as `program_image` gives,
/// which takes the program. A program is refused as it is there. The workers of the choice share the procedures, and pass the gate
/// before each; it may wait.
pub(crate) fn image_of_program<G: Gate, R: Threads + Wait + Sync>(
    rt: &R,
    alloc: Global,
    choice: &Choice,
    program: &Program,
    gate: &G,
) -> Result<Image, ProgramFault>
    requires well_formed { well_formed program.now ≡ true }
    requires choice { IsFitChoice choice.now }
    ensures image { IfOk result (IsImageOfProgram choice.now program.now) }
    ensures limit { IfErr result (Tells choice.now program.now) }
{
    match linked_program(rt, alloc, choice, program, gate) {
        Ok(linked) => Ok(linked.image),
        Err(fault) => Err(fault),
    }
}
