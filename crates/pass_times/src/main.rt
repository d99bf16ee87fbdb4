//! Tells what the passes of the compiler take, for the scripts in bench/.
//!
//! With the words SEED SIZE [POLICY [BUILDER [REGS [JOBS]]]] it makes the module of this seed and size (`bulk_text`) and calls the
//! passes one behind the other. It writes a line for each call, its name and the microseconds that it took, those of the
//! processors' time and those that passed: `scan`; `read`, which is scanning and parsing; `check`, which is both and checking;
//! `lower`; `valid`, which looks whether procedures are valid, as the compiler needn't; `select`, which does that and selects; `cut`,
//! which makes traces, and `results`, which gives them places by the workers; `allocate`, which is both
//! and the lines of edges; `link`. Behind these stand the words of the code, what the module writes, and the machine's
//! steps. With `all` before these words the passes are called in one call, and the first line is `all`. With `text SEED SIZE` it
//! writes the module's text; with `check` it reads a text from its input, and writes the first three lines for it; with `lower`, the
//! fourth too, also where a limit is passed.
//!
//! Its stored run has no words and tells no times: the words, the number and the steps of a made module by each policy.
#![tactic(auto)]

ghost use Rattle.std.specs.Prelude.{◌≤◌};
ghost use Rattle.image_form.specs.Form.{IsInForm};

mod passes;
mod running;
mod timing;
mod words;

use anyhow::Result;
use bulk_text::bulk_text;
use items::Items;
use passes::compiled;
use running::steps_of;
use source_image::Image;
use std::alloc::{AllocError, Global};
use std::env;
use std::rt::{Clock, CpuClock};
use std::sync::Wait;
use std::thread::Threads;
use timing::{MOST_BYTES, time_all, time_check, time_lowering, time_passes};
use trc_base::{HostSink, HostSource, Sink, Source, read_all, write_all};
use words::made_module;

/// The words of the stored run's modules.
const CALLS: [&str; 4] = [
    "7 100 plain",
    "7 100 linear",
    "7 100 bottomup",
    "7 100 mixed",
];

// The text of a made module.
fn made_text(alloc: Global, seed: u64, size: u32) -> Result<[Items<u8>; 1], AllocError>
    requires { 1 ≤ size }
{
    Ok([Items::from_vec(bulk_text(alloc, seed, size)?)])
}

// Writes how many words an image has, what it writes, and how many steps it takes.
fn tell_image<R: Print, O: Sink>(rt: &R, alloc: Global, image: Image, out: &mut O) -> Result<()>
    requires { IsInForm image }
{
    let words = image.code.as_slice().len();
    println!(rt; "words {words}")?;
    print!(rt; "output ")?;
    match steps_of(alloc, image, out)? {
        Some(steps) => println!(rt; "steps {steps}")?,
        None => println!(rt; "no end")?,
    }
    Ok(())
}

// Compiles the module of these words, and tells of its image.
fn tell_call<R: Print + Threads + Wait + Sync, O: Sink>(
    rt: &R,
    alloc: Global,
    call: &str,
    out: &mut O,
) -> Result<()> {
    println!(rt; "{call}")?;
    let mut words = Vec::new(alloc);
    for word in call.split(' ') {
        words.push(String::from_str(alloc, word)?)?;
    }
    let wanted = made_module(alloc, words.as_slice())?;
    let text = made_text(alloc, wanted.seed, wanted.size)?;
    let made = compiled(rt, alloc, &wanted.choice, &text)?;
    tell_image(rt, alloc, made.image, out)
}

// Compiles the modules of the stored run.
fn tell_calls<R: Print + Threads + Wait + Sync, O: Sink>(
    rt: &R,
    alloc: Global,
    out: &mut O,
) -> Result<()> {
    for call in CALLS {
        tell_call(rt, alloc, call, out)?;
    }
    Ok(())
}

// Writes the text of the module of these words.
fn write_text<O: Sink>(alloc: Global, words: &[String], out: &mut O) -> Result<()> {
    let wanted = made_module(alloc, words)?;
    let text = made_text(alloc, wanted.seed, wanted.size)?;
    write_all(out, text[0].as_slice())?;
    Ok(())
}

// The text on the input.
fn read_text<I: Source>(alloc: Global, input: &mut I) -> Result<[Items<u8>; 1]> {
    let text = read_all(alloc, input, MOST_BYTES)?;
    Ok([Items::from_vec(text)])
}

// Times the checking of a text.
fn time_text<R: Clock + CpuClock + Print>(
    rt: &R,
    alloc: Global,
    text: &[Items<u8>; 1],
) -> Result<()> {
    time_check(rt, alloc, text)?;
    Ok(())
}

// Times the passes for the module of these words, in one call or one by one.
fn time_module<R: Clock + CpuClock + Print + Threads + Wait + Sync, O: Sink>(
    rt: &R,
    alloc: Global,
    words: &[String],
    in_one: bool,
    out: &mut O,
) -> Result<()> {
    let wanted = made_module(alloc, words)?;
    let text = made_text(alloc, wanted.seed, wanted.size)?;
    let image = if in_one {
        time_all(rt, alloc, &wanted.choice, &text)?
    } else {
        time_passes(rt, alloc, &wanted.choice, &text)?
    };
    tell_image(rt, alloc, image, out)
}

fn main(rt: HostRuntime) -> Result<()> {
    let alloc = rt.alloc();
    let mut out = HostSink::new(&rt, false);
    let words = env::args(&rt)?.skip(1).collect::<Vec<String>>(alloc)?;
    let Some(first) = words.first() else {
        return tell_calls(&rt, alloc, &mut out);
    };
    match first.as_str() {
        "check" => time_text(&rt, alloc, &read_text(alloc, &mut HostSource::new(&rt))?),
        "lower" => time_lowering(&rt, alloc, &read_text(alloc, &mut HostSource::new(&rt))?),
        "text" => write_text(alloc, &words[1..], &mut out),
        "all" => time_module(&rt, alloc, &words[1..], true, &mut out),
        _ => time_module(&rt, alloc, &words, false, &mut out),
    }
}
