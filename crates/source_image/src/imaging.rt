//! The image of a program's texts, and its traces.

ghost use Rattle.std.specs.Prelude.{◌<◌, ◌^◌, IfOk, IfErr};
ghost use Rattle.image_file.specs.Spelling.{AreWords, IsOfWords, numbers_of, place_numbers};
ghost use Rattle.alloc_choice.specs.Choice.{IsFitChoice};
ghost use Rattle.source_image.specs.Images.{IsImageOfTexts, AreTracesOfTexts};
ghost use Rattle.source_image.specs.Refusals.{IsRefusal, IsRefusalOfTraces};

use crate::refusal::{Refusal, refused_program, refused_source};
use image_form::{Image, ProcPlace};
use items::Items;
use outside::Gate;
use program_image::{Choice, Compiled, program_image, program_traces};
use source_program::source_program;
use std::alloc::Global;
use std::sync::Wait;
use std::thread::Threads;

/// The image of the modules with these texts, in this order, by the builder, the policy and the registers that are chosen.
///
/// Each text is read and judged before the next is begun, and limits of the program come after all modules are judged. The workers
/// of the choice share the procedures, and the traces of large ones, and pass the gate before each; it may wait.
pub fn source_image<G: Gate, R: Threads + Wait + Sync>(
    rt: &R,
    alloc: Global,
    choice: &Choice,
    texts: &[Items<u8>],
    gate: &G,
) -> Result<Compiled, Refusal>
    requires { IsFitChoice choice.now }
    ensures image { IfOk result (IsImageOfTexts choice.now texts.now) }
    ensures refused { IfErr result (IsRefusal choice.now texts.now) }
{
    let program = match source_program(alloc, texts) {
        Ok(program) => program,
        Err(fault) => return Err(refused_source(fault)),
    };
    match program_image(rt, alloc, choice, program, gate) {
        Ok(made) => {
            of_words(&made.image);
            Ok(made)
        }
        Err(fault) => Err(refused_program(fault)),
    }
}

/// The code words of an image are words.
fn code_of_words(code: &[u32])
    ensures { AreWords code.now }
{}

/// A number of 32 bits is a word.
fn number_of_word(number: u32)
    ensures { number < 2 ^ 32 }
{}

/// The numbers of a place are words.
fn place_of_words(place: ProcPlace)
    ensures { AreWords (numbers_of place) }
{
    number_of_word(place.word);
    number_of_word(place.module);
    number_of_word(place.line);
}

/// The numbers of places are words.
fn places_of_words(places: &[ProcPlace])
    ensures { AreWords (place_numbers places.now) }
{
    for place in places {
        place_of_words(*place);
    }
}

/// What an image holds are words, as what is said of its file asks.
pub fn of_words(image: &Image)
    ensures { IsOfWords image.now }
{
    code_of_words(image.code.as_slice());
    places_of_words(image.places.as_slice());
}

/// The lines that tell the traces of the modules with these texts, by the builder and the policy that are chosen.
///
/// Each text is read and judged before the next is begun, and limits of the program come after all modules are judged.
pub fn source_traces(
    alloc: Global,
    choice: &Choice,
    texts: &[Items<u8>],
) -> Result<Vec<u8>, Refusal>
    ensures lines { IfOk result (λ lines. AreTracesOfTexts choice.now texts.now lines.items) }
    ensures refused { IfErr result (IsRefusalOfTraces choice.now texts.now) }
{
    let program = match source_program(alloc, texts) {
        Ok(program) => program,
        Err(fault) => return Err(refused_source(fault)),
    };
    match program_traces(alloc, choice, &program) {
        Ok(lines) => Ok(lines),
        Err(fault) => Err(refused_program(fault)),
    }
}
