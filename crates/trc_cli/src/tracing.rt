//! Modules are compiled as far as their traces, which are told.

ghost use Rattle.std.specs.Prelude.{◌≤◌, ℕ, List, Option, length, map};
ghost use Rattle.outside.specs.Files.{Held};
ghost use Rattle.trc_answers.specs.Answers.{Answers, devices};
ghost use Rattle.trc_answers.specs.Causes.{IsPlaced};
ghost use Rattle.trc_answers.specs.Reading.{FilesComeTo};
ghost use Rattle.trc_cli.specs.Commands.{IsTextHeld, IsTextIn, TracesComeTo};

use items::Items;
use object_commands::image_words::Choice;
use object_commands::trace_lines;
use outside::{Files, Sink};
use std::alloc::Global;
use trc_answers::{Ending, print, read_texts};

// Tells the traces of texts.
fn trace_texts<O: Sink>(alloc: Global, texts: &[Items<u8>], choice: &Choice, out: &mut O) -> Ending
    requires { length texts.now ≤ 64 }
    ensures answers { (held : Option Held) (faults : ℕ) (left : Option (List ℕ)) (input_faults : ℕ)
        → Answers (λ _. TracesComeTo choice.now texts.now)
        (devices held faults left input_faults (O.account out.old))
        (devices held faults left input_faults (O.account out.new)) result.cause }
    ensures placed { IsPlaced (IsTextIn texts.now) result.cause result.place }
    ensures rises { (O.account out.old).faults ≤ (O.account out.new).faults }
{
    match trace_lines(alloc, choice, texts) {
        Ok(lines) => Ending::of(print(out, lines.as_slice())),
        Err(ending) => ending,
    }
}

/// Tells the traces of the files of these names.
pub(crate) fn traces<F: Files, O: Sink>(
    alloc: Global,
    names: &[&str],
    choice: &Choice,
    files: &mut F,
    out: &mut O,
) -> Ending
    ensures answers { (left : Option (List ℕ)) (input_faults : ℕ)
        → Answers (λ _. FilesComeTo (F.held files.old) (map (λ name. name.now) names.now) (TracesComeTo choice.now))
        (devices (F.held files.old) (F.faults files.old) left input_faults (O.account out.old))
        (devices (F.held files.new) (F.faults files.new) left input_faults (O.account out.new)) result.cause }
    ensures placed { IsPlaced (IsTextHeld (F.held files.old) (map (λ name. name.now) names.now)) result.cause result.place }
    ensures files_rise { F.faults files.old ≤ F.faults files.new }
    ensures out_rises { (O.account out.old).faults ≤ (O.account out.new).faults }
{
    match read_texts(alloc, names, files) {
        Ok(texts) => trace_texts(alloc, texts.as_slice(), choice, out),
        Err(cause) => Ending::of(cause),
    }
}
