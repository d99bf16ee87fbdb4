//! Texts are compiled, or the command ends.

ghost use Rattle.std.specs.Prelude.{◌≡◌, ◌<◌, ◌≤◌, length, IfOk, IfErr};
ghost use Rattle.image_words.specs.alloc_choice.Choice.{IsFitChoice};
ghost use Rattle.image_words.specs.source_image.Images.{IsImageOfTexts, AreTracesOfTexts};
ghost use Rattle.image_words.specs.source_image.Refusals.{IsRefusal, IsRefusalOfTraces};
ghost use Rattle.trc_answers.specs.Causes.{IsPlaced};
ghost use Rattle.trc_answers.specs.declared.causes.Cause.TheVariants as cause;
ghost use Rattle.trc_texts.specs.Texts.{IsRefusedAs, IsTextIn, NamesText, cause_of_refusal};

use image_words::{Choice, Compiled, Image, Refusal, source_image, source_traces};
use items::Items;
use outside::Gate;
use std::alloc::Global;
use std::sync::Wait;
use std::thread::Threads;
use trc_answers::{Cause, Ending, position_of};

/// What becomes of what an image was made on.
#[derive(Clone, Copy)]
pub enum Scaffolds {
    /// It is let go, piece by piece.
    LetGo,
    /// It is left standing, in a process that ends soon.
    LeftStanding,
}

/// The image alone.
pub fn image_alone(made: Compiled, scaffolds: Scaffolds) -> Image
    ensures { result ≡ made.image }
{
    match scaffolds {
        Scaffolds::LetGo => {
            let Compiled { image, .. } = made;
            image
        }
        Scaffolds::LeftStanding => made.into_image(),
    }
}

// A rule is broken in the text of this number, at this byte.
fn broken(texts: &[Items<u8>], index: usize, number: u8, at: u32) -> Ending
    requires few { length texts.now ≤ 64 }
    requires there { index < length texts.now }
    ensures cause { result.cause ≡ cause.Source number index at }
    ensures placed { IsPlaced (IsTextIn texts.now) result.cause result.place }
{
    Ending {
        cause: Cause::Source {
            number,
            module: index as u32,
            at,
        },
        place: position_of(texts[index].as_slice(), at as usize),
    }
}

/// How a command ends that compiles these texts, which are refused, and of which there are at most 64.
pub fn refused(texts: &[Items<u8>], refusal: Refusal) -> Ending
    requires few { length texts.now ≤ 64 }
    requires named { NamesText texts.now refusal }
    ensures cause { result.cause ≡ cause_of_refusal refusal }
    ensures placed { IsPlaced (IsTextIn texts.now) result.cause result.place }
{
    match refusal {
        Refusal::TooLong { module } => Ending::of(Cause::Limit {
            number: 55,
            index: module as u32,
        }),
        Refusal::Source { module, number, at } => broken(texts, module, number, at),
        Refusal::Limit { number, index } => Ending::of(Cause::Limit { number, index }),
        Refusal::Memory => Ending::of(Cause::Memory),
    }
}

/// The image of texts by a choice, of which there are at most 64.
pub fn compile<R: Threads + Wait + Sync, G: Gate>(
    rt: &R,
    alloc: Global,
    choice: &Choice,
    texts: &[Items<u8>],
    gate: &G,
) -> Result<Compiled, Ending>
    requires choice { IsFitChoice choice.now }
    requires few { length texts.now ≤ 64 }
    ensures image { IfOk result (IsImageOfTexts choice.now texts.now) }
    ensures refused { IfErr result (λ ending. IsRefusedAs (IsRefusal choice.now texts.now) ending.cause) }
    ensures placed { IfErr result (λ ending. IsPlaced (IsTextIn texts.now) ending.cause ending.place) }
{
    match source_image(rt, alloc, choice, texts, gate) {
        Ok(made) => Ok(made),
        Err(refusal) => Err(refused(texts, refusal)),
    }
}

/// The lines that tell the traces of texts by a choice, of which there are at most 64.
pub fn trace_lines(alloc: Global, choice: &Choice, texts: &[Items<u8>]) -> Result<Vec<u8>, Ending>
    requires { length texts.now ≤ 64 }
    ensures lines { IfOk result (λ lines. AreTracesOfTexts choice.now texts.now lines.items) }
    ensures refused { IfErr result (λ ending. IsRefusedAs (IsRefusalOfTraces choice.now texts.now) ending.cause) }
    ensures placed { IfErr result (λ ending. IsPlaced (IsTextIn texts.now) ending.cause ending.place) }
{
    match source_traces(alloc, choice, texts) {
        Ok(lines) => Ok(lines),
        Err(refusal) => Err(refused(texts, refusal)),
    }
}
