//! Noted images of texts.

ghost use Rattle.std.specs.Prelude.{IfOk, IfErr};
ghost use Rattle.planned_image.specs.words.alloc_choice.Choice.{IsFitChoice};
ghost use Rattle.planned_image.specs.words.source_image.Refusals.{IsRefusalOf};
ghost use Rattle.noted_image.specs.Faults.{TellsWithNotes};
ghost use Rattle.noted_image.specs.Notes.{IsNotedImageOfTexts};

use crate::noting::{NotedImage, noted_image};
use items::Items;
use outside::Gate;
use planned_image::image_words::{
    Choice, Refusal, refused_program, refused_source, source_program,
};
use std::alloc::Global;
use std::sync::Wait;
use std::thread::Threads;

/// The image of the modules with these texts by the builder, the policy and the registers that are chosen, with the notes of the
/// results behind it. The workers of the choice share the traces of all procedures, and pass the gate before each; it may wait.
pub fn source_noted<G: Gate, R: Threads + Wait + Sync>(
    rt: &R,
    alloc: Global,
    choice: &Choice,
    texts: &[Items<u8>],
    gate: &G,
) -> Result<NotedImage, Refusal>
    requires { IsFitChoice choice.now }
    ensures image { IfOk result (IsNotedImageOfTexts choice.now texts.now) }
    ensures refused { IfErr result (IsRefusalOf (TellsWithNotes choice.now) texts.now) }
{
    let program = match source_program(alloc, texts) {
        Ok(program) => program,
        Err(fault) => return Err(refused_source(fault)),
    };
    match noted_image(rt, alloc, choice, &program, gate) {
        Ok(made) => Ok(made),
        Err(fault) => Err(refused_program(fault)),
    }
}
