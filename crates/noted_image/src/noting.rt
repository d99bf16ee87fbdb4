//! An image with the notes of the results behind it.

ghost use Rattle.std.specs.Prelude.{◌≡◌, true, IfOk, IfErr};
ghost use Rattle.ob_types.specs.WellFormed.{well_formed};
ghost use Rattle.planned_image.specs.words.alloc_choice.Choice.{IsFitChoice};
ghost use Rattle.noted_image.specs.Faults.{TellsWithNotes};
ghost use Rattle.noted_image.specs.Notes.{IsNotedImage};

use crate::notes::kept_notes;
use image_form::Image;
use ob_types::Program;
use outside::Gate;
use planned_image::image_words::{
    AllocatedFlows, Choice, LinkFault, ProgramFault, allocate_flows, link, of_words, whole_limit,
};
use planned_image::{ProgramFlows, WorkFault, program_flows};
use std::alloc::Global;
use std::sync::Wait;
use std::thread::Threads;

/// An image, and the notes of the results behind it.
#[derive(Drop)]
pub struct NotedImage {
    pub image: Image,
    pub notes: Vec<u8>,
}

/// The image of a well-formed program by the builder, the policy and the registers that are chosen, the same as `program_image` gives,
/// with the notes of the results behind it. A program is refused as it is for its image, and behind all of that where the notes would
/// have over 67,108,864 bytes (67). All its flows and results lie in memory. The workers of the choice share the traces, and pass the
/// gate before each; it may wait.
pub fn noted_image<G: Gate, R: Threads + Wait + Sync>(
    rt: &R,
    alloc: Global,
    choice: &Choice,
    program: &Program,
    gate: &G,
) -> Result<NotedImage, ProgramFault>
    requires well_formed { well_formed program.now ≡ true }
    requires choice { IsFitChoice choice.now }
    ensures image { IfOk result (IsNotedImage choice.now program.now) }
    ensures limit { IfErr result (TellsWithNotes choice.now program.now) }
{
    let ProgramFlows { flows, extra } = program_flows(alloc, program)?;
    let AllocatedFlows { parts, outs, .. } = match allocate_flows(
        rt,
        alloc,
        choice,
        0,
        flows.as_slice(),
        gate,
    ) {
        Ok(allocated) => allocated,
        Err(WorkFault::Traces) => return Err(whole_limit(57)),
        Err(WorkFault::Memory) => return Err(ProgramFault::Memory),
    };
    let Ok(notes) = kept_notes(alloc, outs.as_slice()) else {
        return Err(ProgramFault::Memory);
    };
    let image = match link(alloc, flows.as_slice(), parts, outs, extra) {
        Ok(image) => image,
        Err(LinkFault::Limit) => return Err(whole_limit(54)),
        Err(LinkFault::Misfit) => unreachable!(),
        Err(LinkFault::Memory) => return Err(ProgramFault::Memory),
    };
    of_words(&image);
    match notes {
        Some(notes) => Ok(NotedImage { image, notes }),
        None => Err(whole_limit(67)),
    }
}
