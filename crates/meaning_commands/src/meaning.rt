//! What the texts of modules mean is done.

ghost use Rattle.std.specs.Prelude.{◌≡◌, ◌≤◌, ℕ, Option, true, length, map};
ghost use Rattle.outside.specs.Files.{Held};
ghost use Rattle.run_laws.specs.Runs.{output};
ghost use Rattle.ob_types.specs.Meaning.{meaning};
ghost use Rattle.ob_types.specs.WellFormed.{well_formed};
ghost use Rattle.trc_answers.specs.Answers.{Answers, devices};
ghost use Rattle.trc_answers.specs.Causes.{IsPlaced, IsPlain};
ghost use Rattle.trc_answers.specs.Reading.{FilesComeTo};
ghost use Rattle.trc_texts.specs.Texts.{IsTextHeld, IsTextIn};
ghost use Rattle.meaning_commands.specs.Meanings.{MeanAnswers, MeanComeTo, MeaningComesTo, cause_of_meaning, spot_in};

use crate::input::read_input;
use crate::programs::program_within;
use items::Items;
use ob_eval::{Eval, eval};
use ob_types::Program;
use outside::{Files, Sink, Source};
use std::alloc::Global;
use trc_answers::{Cause, Device, Ending, Spot, read_texts};

/// Where the text of the procedure of this number begins.
fn spot_in(program: &Program, procedure: u32) -> Option<Spot>
    ensures { result ≡ spot_in program.now procedure }
{
    let found = program.procedures.as_slice().get(procedure as usize)?;
    Some(Spot {
        module: found.module,
        line: found.line,
    })
}

// Does what a program means on an input, with so many turns.
fn mean_on<O: Sink>(
    alloc: Global,
    program: &Program,
    input: &[u8],
    turns: u64,
    out: &mut O,
) -> Cause
    requires { well_formed program.now ≡ true }
    ensures answers { MeanAnswers (cause_of_meaning program.now (meaning program.now input.now turns)) (output (meaning program.now input.now turns))
        (O.account out.old) (O.account out.new) result }
    ensures plain { IsPlain result }
    ensures rises { (O.account out.old).faults ≤ (O.account out.new).faults }
{
    match eval(alloc, program, input, turns, out) {
        Eval::Ended => Cause::Done,
        Eval::Trapped { kind, procedure } => Cause::Trapped {
            kind,
            spot: spot_in(program, procedure),
        },
        Eval::Going => Cause::TurnsSpent,
        Eval::WriteFault => Cause::WriteFault {
            device: Device::Output,
        },
        Eval::Memory => Cause::Memory,
    }
}

// Does what a program means, on the input where some module imports In.
fn mean_program<I: Source, O: Sink>(
    alloc: Global,
    program: &Program,
    turns: u64,
    input: &mut I,
    out: &mut O,
) -> Cause
    requires { well_formed program.now ≡ true }
    ensures answers { (held : Option Held) (faults : ℕ)
        → Answers (λ left. MeaningComesTo left turns program.now)
        (devices held faults (I.left input.old) (I.faults input.old) (O.account out.old))
        (devices held faults (I.left input.new) (I.faults input.new) (O.account out.new)) result }
    ensures plain { IsPlain result }
    ensures input_rises { I.faults input.old ≤ I.faults input.new }
    ensures out_rises { (O.account out.old).faults ≤ (O.account out.new).faults }
{
    match read_input(alloc, program.imports_in, input) {
        Ok(bytes) => mean_on(alloc, program, bytes.as_slice(), turns, out),
        Err(cause) => cause,
    }
}

// Does what texts mean.
fn mean_texts<I: Source, O: Sink>(
    alloc: Global,
    texts: &[Items<u8>],
    turns: u64,
    input: &mut I,
    out: &mut O,
) -> Ending
    requires { length texts.now ≤ 64 }
    ensures answers { (held : Option Held) (faults : ℕ)
        → Answers (λ left. MeanComeTo left turns texts.now)
        (devices held faults (I.left input.old) (I.faults input.old) (O.account out.old))
        (devices held faults (I.left input.new) (I.faults input.new) (O.account out.new)) result.cause }
    ensures placed { IsPlaced (IsTextIn texts.now) result.cause result.place }
    ensures input_rises { I.faults input.old ≤ I.faults input.new }
    ensures out_rises { (O.account out.old).faults ≤ (O.account out.new).faults }
{
    match program_within(alloc, texts) {
        Ok(program) => Ending::of(mean_program(alloc, &program, turns, input, out)),
        Err(ending) => ending,
    }
}

/// Does what the modules in the files of these names mean, with at most so many turns. Their text is refused as where their traces are
/// told. What is written goes to the output as it comes, so a front of it may be written when memory runs out.
pub fn mean<F: Files, I: Source, O: Sink>(
    alloc: Global,
    names: &[&str],
    turns: u64,
    files: &mut F,
    input: &mut I,
    out: &mut O,
) -> Ending
    ensures answers { Answers (λ left. FilesComeTo (F.held files.old) (map (λ name. name.now) names.now) (MeanComeTo left turns))
        (devices (F.held files.old) (F.faults files.old) (I.left input.old) (I.faults input.old) (O.account out.old))
        (devices (F.held files.new) (F.faults files.new) (I.left input.new) (I.faults input.new) (O.account out.new)) result.cause }
    ensures placed { IsPlaced (IsTextHeld (F.held files.old) (map (λ name. name.now) names.now)) result.cause result.place }
    ensures files_rise { F.faults files.old ≤ F.faults files.new }
    ensures input_rises { I.faults input.old ≤ I.faults input.new }
    ensures out_rises { (O.account out.old).faults ≤ (O.account out.new).faults }
{
    match read_texts(alloc, names, files) {
        Ok(texts) => mean_texts(alloc, texts.as_slice(), turns, input, out),
        Err(cause) => Ending::of(cause),
    }
}
