//! An image with the figures of the code behind it.

ghost use Rattle.std.specs.Prelude.{◌≡◌, true, length, IfOk, IfErr};
ghost use Rattle.ob_types.specs.WellFormed.{well_formed};
ghost use Rattle.ob_types.specs.declared.program.Program.{Program};
ghost use Rattle.noted_image.specs.words.alloc_choice.Choice.{IsFitChoice};
ghost use Rattle.noted_image.specs.planned_image.Plans.{AreProgramFlows};
ghost use Rattle.noted_image.specs.words.program_image.Faults.{Tells};
ghost use Rattle.program_figures.specs.Images.{IsFiguredImage};

use crate::lines::{LineCounts, line_counts};
use image_form::{Bytes, Image};
use items::Items;
use noted_image::image_words::{
    AllocatedFlows, Choice, ImageData, LinkFault, ProgramFault, allocate_flows, link, whole_limit,
};
use noted_image::{ProgramFlows, WorkFault};
use outside::Gate;
use std::alloc::{AllocError, Global};
use std::sync::Wait;
use std::thread::Threads;

/// What the code of a program comes to under a choice.
#[derive(Clone, Copy)]
pub struct CodeFigures {
    /// The words of the image's code.
    pub words: usize,
    /// The traces of all procedures.
    pub traces: u32,
    /// The steps on edges.
    pub moves: u64,
    /// How often a home is written in the code's lines.
    pub stores: u64,
    /// How often a home is read in them.
    pub loads: u64,
    /// The bytes of the greatest frame.
    pub frame: u32,
}

/// An image, and what the code behind it comes to.
#[derive(Drop)]
pub struct FiguredImage {
    pub image: Image,
    pub figures: CodeFigures,
}

// A copy of an image's data.
fn copied(alloc: Global, extra: &ImageData) -> Result<ImageData, AllocError>
    ensures { IfOk result (λ copy. copy ≡ extra.now) }
{
    Ok(ImageData {
        flags: extra.flags,
        globals: extra.globals,
        constants: Bytes::new(Vec::from_slice(alloc, extra.constants.as_slice())?),
        names: Items::from_slice(alloc, extra.names.as_slice())?,
    })
}

// An image with its figures.
fn figured(image: Image, traces: u32, counts: LineCounts) -> FiguredImage
    ensures image { result.image ≡ image }
    ensures figures { result.figures
        ≡ record { words = length image.code; traces = traces; moves = counts.moves; stores = counts.stores; loads = counts.loads; frame = image.frame } }
{
    let figures = CodeFigures {
        words: image.code.as_slice().len(),
        traces,
        moves: counts.moves,
        stores: counts.stores,
        loads: counts.loads,
        frame: image.frame,
    };
    FiguredImage { image, figures }
}

/// The image of a program's flows by the builder, the policy and the registers that are chosen, the same as `program_image` gives,
/// with the figures of the code behind it. The flows are refused as the program is for its image, but that no limit of lowering is
/// passed any more: for over 262,144 traces (57), or for over 262,144 words of code (54). The workers of the choice share the traces,
/// and pass the gate before each; it may wait. Takes the time of the passes.
pub fn figured_image<G: Gate, R: Threads + Wait + Sync>(
    rt: &R,
    alloc: Global,
    choice: &Choice,
    program: &ProgramFlows,
    gate: &G,
) -> Result<FiguredImage, ProgramFault>
    requires program { (p : Program) × (well_formed p ≡ true) × AreProgramFlows p program.now }
    requires choice { IsFitChoice choice.now }
    ensures image { IfOk result (λ made. (p : Program) → well_formed p ≡ true → AreProgramFlows p program.now → IsFiguredImage choice.now p made) }
    ensures limit { IfErr result (λ fault. (p : Program) → AreProgramFlows p program.now → Tells choice.now p fault) }
{
    let flows = program.flows.as_slice();
    let AllocatedFlows {
        parts,
        outs,
        traces,
    } = match allocate_flows(rt, alloc, choice, 0, flows, gate) {
        Ok(allocated) => allocated,
        Err(WorkFault::Traces) => return Err(whole_limit(57)),
        Err(WorkFault::Memory) => return Err(ProgramFault::Memory),
    };
    let Ok(counts) = line_counts(parts.as_slice()) else {
        return Err(ProgramFault::Memory);
    };
    let Ok(extra) = copied(alloc, &program.extra) else {
        return Err(ProgramFault::Memory);
    };
    match link(alloc, flows, parts, outs, extra) {
        Ok(image) => Ok(figured(image, traces, counts)),
        Err(LinkFault::Limit) => Err(whole_limit(54)),
        Err(LinkFault::Misfit) => unreachable!(),
        Err(LinkFault::Memory) => Err(ProgramFault::Memory),
    }
}
