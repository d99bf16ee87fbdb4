//! Modules are compiled, and their image is run.

ghost use Rattle.std.specs.Prelude.{◌≤◌, ℕ, Option, length, map};
ghost use Rattle.object_commands.specs.words.alloc_choice.Choice.{IsFitChoice};
ghost use Rattle.outside.specs.Files.{Held};
ghost use Rattle.trc_answers.specs.Answers.{Answers, devices};
ghost use Rattle.trc_answers.specs.Causes.{IsPlaced};
ghost use Rattle.trc_answers.specs.Reading.{FilesComeTo};
ghost use Rattle.trc_answers.specs.Verdict.{ImageComesTo};
ghost use Rattle.trc_cli.specs.Commands.{IsTextHeld, IsTextIn, TextsComeTo};

use items::Items;
use object_commands::image_words::Choice;
use object_commands::{Scaffolds, compile, image_alone};
use outside::{Files, Gate, Sink, Source};
use std::alloc::AllocGlobal;
use std::sync::Wait;
use std::thread::Threads;
use trc_answers::{Ending, read_texts, run_image};

// Compiles texts, and runs their image.
fn run_texts<R: Threads + Wait + AllocGlobal + Sync, I: Source, O: Sink, G: Gate>(
    rt: &R,
    texts: &[Items<u8>],
    choice: &Choice,
    steps: u64,
    input: &mut I,
    out: &mut O,
    gate: &G,
    scaffolds: Scaffolds,
) -> Ending
    requires choice { IsFitChoice choice.now }
    requires few { length texts.now ≤ 64 }
    ensures answers { (held : Option Held) (faults : ℕ)
        → Answers (λ left. TextsComeTo choice.now (λ made. ImageComesTo left steps made.image) texts.now)
        (devices held faults (I.left input.old) (I.faults input.old) (O.account out.old))
        (devices held faults (I.left input.new) (I.faults input.new) (O.account out.new)) result.cause }
    ensures placed { IsPlaced (IsTextIn texts.now) result.cause result.place }
    ensures input_rises { I.faults input.old ≤ I.faults input.new }
    ensures out_rises { (O.account out.old).faults ≤ (O.account out.new).faults }
{
    match compile(rt, rt.alloc(), choice, texts, gate) {
        Ok(made) => {
            let image = image_alone(made, scaffolds);
            Ending::of(run_image(rt.alloc(), image, steps, input, out))
        }
        Err(ending) => ending,
    }
}

/// Compiles the files of these names, and runs their image.
pub(crate) fn run<R: Threads + Wait + AllocGlobal + Sync, F: Files, I: Source, O: Sink, G: Gate>(
    rt: &R,
    names: &[&str],
    choice: &Choice,
    steps: u64,
    files: &mut F,
    input: &mut I,
    out: &mut O,
    gate: &G,
    scaffolds: Scaffolds,
) -> Ending
    requires { IsFitChoice choice.now }
    ensures answers { Answers (λ left. FilesComeTo (F.held files.old) (map (λ name. name.now) names.now)
        (TextsComeTo choice.now (λ made. ImageComesTo left steps made.image)))
        (devices (F.held files.old) (F.faults files.old) (I.left input.old) (I.faults input.old) (O.account out.old))
        (devices (F.held files.new) (F.faults files.new) (I.left input.new) (I.faults input.new) (O.account out.new)) result.cause }
    ensures placed { IsPlaced (IsTextHeld (F.held files.old) (map (λ name. name.now) names.now)) result.cause result.place }
    ensures files_rise { F.faults files.old ≤ F.faults files.new }
    ensures input_rises { I.faults input.old ≤ I.faults input.new }
    ensures out_rises { (O.account out.old).faults ≤ (O.account out.new).faults }
{
    match read_texts(rt.alloc(), names, files) {
        Ok(texts) => run_texts(
            rt,
            texts.as_slice(),
            choice,
            steps,
            input,
            out,
            gate,
            scaffolds,
        ),
        Err(cause) => Ending::of(cause),
    }
}
