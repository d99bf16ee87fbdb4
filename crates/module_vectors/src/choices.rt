//! The images of modules by every policy and builder, with 4, 8 and 16 registers, by one worker and by several.

ghost use Rattle.alloc_choice.specs.Choice.{IsFitChoice};

use items::Items;
use outside::{Memory, OpenGate};
use source_image::{Builder, Choice, Image, Policy, source_image};
use std::alloc::Global;
use std::sync::Wait;
use std::thread::Threads;
use vector_texts::sum_of;

/// How often the image of the last choice is made by each number of workers.
const TIMES: u32 = 10;

fn name_of_policy(policy: Policy) -> &'static str {
    match policy {
        Policy::Plain => "plain",
        Policy::Linear => "linear",
        Policy::BottomUp => "bottomup",
        Policy::Mixed => "mixed",
    }
}

fn name_of_builder(builder: Builder) -> &'static str {
    match builder {
        Builder::Uni => "uni",
        Builder::Bi => "bi",
    }
}

/// Whether two images are the same.
fn is_same(a: &Image, b: &Image) -> bool {
    a.code.as_slice() == b.code.as_slice()
        && a.constants.as_slice() == b.constants.as_slice()
        && (a.frame, a.globals, a.flags) == (b.frame, b.globals, b.flags)
}

/// Whether so many workers make the same image, so often.
fn agree<R: Threads + Wait + Sync>(
    rt: &R,
    alloc: Global,
    choice: &Choice,
    texts: &[Items<u8>],
    image: &Image,
    times: u32,
) -> bool
    requires { IsFitChoice choice.now }
{
    let mut all_same = true;
    for _ in 0..times {
        let same = match source_image(rt, alloc, choice, texts, &OpenGate) {
            Ok(made) => is_same(&made.image, image),
            Err(_) => false,
        };
        all_same = all_same && same;
    }
    all_same
}

/// Adds the line of an image by a choice, behind a line's end, which one worker makes and then several, so often.
fn push_image<R: Threads + Wait + Sync>(
    rt: &R,
    alloc: Global,
    text: &mut String,
    one: &Choice,
    texts: &[Items<u8>],
    times: u32,
) -> Result<(), Memory>
    requires { IsFitChoice one.now }
{
    let (policy, builder) = (name_of_policy(one.policy), name_of_builder(one.builder));
    write!(text, "\n{policy} {builder} {}", one.regs)?;
    let Ok(made) = source_image(rt, alloc, one, texts, &OpenGate) else {
        return Ok(text.push_str(" no image")?);
    };
    let words = made.image.code.as_slice();
    let sum = sum_of(words, made.image.constants.as_slice());
    write!(text, " words {} sum {sum}", words.len())?;
    for jobs in [2, 3, 8, 64] {
        let several = Choice { jobs, ..*one };
        if !agree(rt, alloc, &several, texts, &made.image, times) {
            write!(text, " differs by {jobs} workers")?;
        }
    }
    Ok(())
}

/// The lines of all images of modules, behind a line that tells of them.
pub(crate) fn every_image<R: Threads + Wait + Sync>(
    rt: &R,
    alloc: Global,
    texts: &[Items<u8>],
) -> Result<String, Memory> {
    let mut text = String::from_str(alloc, "images")?;
    for policy in [
        Policy::Plain,
        Policy::Linear,
        Policy::BottomUp,
        Policy::Mixed,
    ] {
        for builder in [Builder::Uni, Builder::Bi] {
            for regs in [4, 8, 16] {
                let one = Choice {
                    policy,
                    builder,
                    regs,
                    jobs: 1,
                };
                let last = policy == Policy::Mixed && builder == Builder::Bi && regs == 16;
                let times = if last { TIMES } else { 1 };
                push_image(rt, alloc, &mut text, &one, texts, times)?;
            }
        }
    }
    Ok(text)
}
