//! The image of a choice: its sizes, a sum over its words and one over the places of its procedures, or why there is none.

ghost use Rattle.std.specs.Prelude.{IfSome};
ghost use Rattle.alloc_choice.specs.Choice.{IsFitChoice};

use image_form::ProcPlace;
use items::Items;
use outside::{Memory, OpenGate};
use source_image::{Builder, Choice, Compiled, Policy, Refusal, source_image};
use std::alloc::{AllocError, Global};
use std::sync::Wait;
use std::thread::Threads;
use vector_texts::sum_of;

/// A policy by its word.
fn policy_named(word: &str) -> Option<Policy> {
    match word {
        "plain" => Some(Policy::Plain),
        "linear" => Some(Policy::Linear),
        "bottomup" => Some(Policy::BottomUp),
        "mixed" => Some(Policy::Mixed),
        _ => None,
    }
}

/// A builder by its word.
fn builder_named(word: &str) -> Option<Builder> {
    match word {
        "uni" => Some(Builder::Uni),
        "bi" => Some(Builder::Bi),
        _ => None,
    }
}

/// So many workers as a word says, or one where there is no word.
fn workers_in(word: Option<&str>) -> Option<u32> {
    match word {
        Some(word) => word.parse::<u32>().ok(),
        None => Some(1),
    }
}

/// The choice that words name: a policy, a builder, 4 to 16 registers, and 1 to 64 workers if a word is left; none where they name
/// no such one.
fn choice_in(words: &str) -> Option<Choice>
    ensures { IfSome result IsFitChoice }
{
    let mut words = words.split(' ');
    let policy = policy_named(words.next()?)?;
    let builder = builder_named(words.next()?)?;
    let regs = words.next()?.parse::<u8>().ok()?;
    let jobs = workers_in(words.next())?;
    if regs < 4 || regs > 16 || jobs < 1 || jobs > 64 {
        return None;
    }
    Some(Choice {
        policy,
        builder,
        regs,
        jobs,
    })
}

/// A sum over the words, modules and lines of places.
fn sum_of_places(alloc: Global, places: &[ProcPlace]) -> Result<u64, AllocError> {
    let mut numbers = Vec::new(alloc);
    for place in places {
        numbers.push(place.word)?;
        numbers.push(place.module)?;
        numbers.push(place.line)?;
    }
    Ok(sum_of(numbers.as_slice(), &[]))
}

/// The line that tells what texts come to.
fn told(alloc: Global, made: &Result<Compiled, Refusal>) -> Result<String, Memory> {
    let text = match made {
        Ok(Compiled { image, .. }) => {
            let words = image.code.as_slice().len();
            let constants = image.constants.as_slice().len();
            let sum = sum_of(image.code.as_slice(), image.constants.as_slice());
            let places = image.places.as_slice();
            let (count, placed) = (places.len(), sum_of_places(alloc, places)?);
            format!(in alloc;
                "image {words} frame {} globals {} constants {constants} flags {} sum {sum} places {count} sum {placed}",
                image.frame, image.globals, image.flags
            )
        }
        Err(Refusal::TooLong { module }) => format!(in alloc; "limit 55 at {module}"),
        Err(Refusal::Source { module, number, at }) => {
            format!(in alloc; "fault {number} in {module} at {at}")
        }
        Err(Refusal::Limit { number, index }) => format!(in alloc; "limit {number} at {index}"),
        Err(Refusal::Memory) => return Err(Memory),
    };
    Ok(text?)
}

/// What modules come to by the choice that words name; nothing where they name none.
pub(crate) fn image_line<R: Threads + Wait + Sync>(
    rt: &R,
    alloc: Global,
    words: &str,
    texts: &[Items<u8>],
) -> Result<String, Memory> {
    let Some(choice) = choice_in(words) else {
        return Ok(String::new(alloc));
    };
    let made = source_image(rt, alloc, &choice, texts, &OpenGate);
    told(alloc, &made)
}
