//! What a program means is compared with the run of its image.

ghost use Rattle.std.specs.Prelude.{◌≡◌, ◌≤◌, ◌++◌, [], ℕ, Option, true, length, map, IfOk, OnOk};
ghost use Rattle.outside.specs.Counts.{raised};
ghost use Rattle.outside.specs.Files.{Held};
ghost use Rattle.trc_texts.specs.words.alloc_choice.Choice.{IsFitChoice};
ghost use Rattle.image_form.specs.Form.{IsInForm};
ghost use Rattle.run_laws.specs.Runs.{output, run};
ghost use Rattle.a64_machine.specs.Machine.{step_of};
ghost use Rattle.a64_machine.specs.View.{code_of, state_of};
ghost use Rattle.ob_types.specs.Meaning.{meaning};
ghost use Rattle.ob_types.specs.WellFormed.{well_formed};
ghost use Rattle.trc_answers.specs.Answers.{Answers, devices};
ghost use Rattle.trc_answers.specs.Causes.{IsPlaced, IsPlain};
ghost use Rattle.trc_answers.specs.Reading.{FilesComeTo};
ghost use Rattle.trc_answers.specs.Runs.{run_of};
ghost use Rattle.trc_texts.specs.Texts.{IsTextHeld, IsTextIn};
ghost use Rattle.meaning_commands.specs.Comparisons.{BothComeTo, ComparisonComesTo, TellAnswers, both_lines, end_of, end_words, kind_broken, kind_meant, run_summary, summary_line, summary_lines};

use crate::imaging::image_of_program;
use crate::input::read_input;
use crate::programs::program_of;
use a64_machine::{Halt, Machine};
use count_sink::CountSink;
use image_form::Image;
use items::Items;
use ob_eval::{Eval, eval};
use ob_types::Program;
use outside::{Files, Gate, Memory, Sink, Source};
use std::alloc::{AllocError, AllocGlobal, Global};
use std::sync::Wait;
use std::thread::Threads;
use trc_answers::{Cause, Ending, print, read_texts};
use trc_texts::image_words::{Choice, refused_program};
use trc_texts::refused;

/// How what is run ended: a meaning, or a machine.
#[derive(Clone, Copy)]
pub enum RunEnd {
    Ended,
    /// By a trap of this kind, 1 to 12.
    Trapped(u16),
    /// It was cut off.
    Going,
}

/// How it ended, and how many bytes it wrote, up to 2^64 - 1.
#[derive(Clone, Copy)]
pub struct RunSummary {
    pub end: RunEnd,
    pub bytes: u64,
}

// How what a program means ends on an input with so many turns, and that its output was counted.
fn end_meant(
    alloc: Global,
    program: &Program,
    input: &[u8],
    turns: u64,
    written: &mut CountSink,
) -> Result<RunEnd, Memory>
    requires { well_formed program.now ≡ true }
    ensures end { IfOk result (λ end. end ≡ end_of kind_meant (meaning program.now input.now turns)) }
    ensures written { OnOk result (written.new ≡ raised written.old (length (output (meaning program.now input.now turns)))) }
{
    match eval(alloc, program, input, turns, written) {
        Eval::Ended => Ok(RunEnd::Ended),
        Eval::Trapped { kind, .. } => Ok(RunEnd::Trapped(kind)),
        Eval::Going => Ok(RunEnd::Going),
        Eval::WriteFault => unreachable!(),
        Eval::Memory => Err(Memory),
    }
}

// With how many bytes written.
fn meant(alloc: Global, program: &Program, input: &[u8], turns: u64) -> Result<RunSummary, Memory>
    requires { well_formed program.now ≡ true }
    ensures { IfOk result (λ summary. summary ≡ run_summary kind_meant (meaning program.now input.now turns)) }
{
    let mut written = CountSink::new();
    let end = end_meant(alloc, program, input, turns, &mut written)?;
    Ok(RunSummary {
        end,
        bytes: written.bytes(),
    })
}

// How a machine ends with so many steps, and that its output was counted.
fn end_ran(machine: Machine, steps: u64, written: &mut CountSink) -> RunEnd
    ensures end { result ≡ end_of kind_broken (run (step_of (code_of machine)) steps (state_of machine) []) }
    ensures written { written.new ≡ raised written.old (length (output (run (step_of (code_of machine)) steps (state_of machine) []))) }
{
    match machine.run(steps, written) {
        Halt::Ended => RunEnd::Ended,
        Halt::Trapped { kind, .. } => RunEnd::Trapped(kind),
        Halt::Spent => RunEnd::Going,
        Halt::Undefined(_) => RunEnd::Trapped(0),
        Halt::BadAddress(_) => RunEnd::Trapped(0),
        Halt::BadCall(_) => RunEnd::Trapped(0),
        Halt::WriteFault => unreachable!(),
    }
}

// With how many bytes written, where it is loaded with an image and an input.
fn ran(alloc: Global, image: Image, input: Vec<u8>, steps: u64) -> Result<RunSummary, Memory>
    requires { IsInForm image }
    ensures { IfOk result (λ summary. summary ≡ run_summary kind_broken (run_of image input.items steps)) }
{
    let mut written = CountSink::new();
    let machine = Machine::load(alloc, image, input)?;
    let end = end_ran(machine, steps, &mut written);
    Ok(RunSummary {
        end,
        bytes: written.bytes(),
    })
}

// Appends the words of an end.
fn put_end(alloc: Global, text: &mut Vec<u8>, end: RunEnd) -> Result<(), AllocError>
    ensures { OnOk result (text.new.items ≡ text.old.items ++ end_words end) }
{
    match end {
        RunEnd::Ended => text.extend_from_slice(b"ended")?,
        RunEnd::Trapped(kind) => {
            text.extend_from_slice(b"trapped ")?;
            let digits = format!(in alloc; "{kind}")?;
            text.extend_from_slice(digits.as_bytes())?;
        }
        RunEnd::Going => text.extend_from_slice(b"going")?,
    }
    Ok(())
}

// Appends a line.
fn put_summary(
    alloc: Global,
    text: &mut Vec<u8>,
    name: &[u8],
    summary: RunSummary,
) -> Result<(), AllocError>
    ensures { OnOk result (text.new.items ≡ text.old.items ++ summary_line name.now summary) }
{
    let bytes = summary.bytes;
    text.extend_from_slice(name)?;
    text.extend_from_slice(b" ")?;
    put_end(alloc, text, summary.end)?;
    text.extend_from_slice(b" ")?;
    let digits = format!(in alloc; "{bytes}")?;
    text.extend_from_slice(digits.as_bytes())?;
    text.push(b'\n')?;
    Ok(())
}

// The lines of both.
fn summaries(alloc: Global, meant: RunSummary, ran: RunSummary) -> Result<Vec<u8>, AllocError>
    ensures { IfOk result (λ lines. lines.items ≡ summary_lines meant ran) }
{
    let mut lines = Vec::new(alloc);
    put_summary(alloc, &mut lines, b"meaning", meant)?;
    put_summary(alloc, &mut lines, b"machine", ran)?;
    Ok(lines)
}

// The ends of what a program means on an input, and of the run of an image on it, in lines.
fn compared(
    alloc: Global,
    program: &Program,
    image: Image,
    input: Vec<u8>,
    steps: u64,
    turns: u64,
) -> Result<Vec<u8>, Memory>
    requires well_formed { well_formed program.now ≡ true }
    requires form { IsInForm image }
    ensures { IfOk result (λ lines. lines.items ≡ both_lines program.now image steps turns input.items) }
{
    let meant = meant(alloc, program, input.as_slice(), turns)?;
    let ran = ran(alloc, image, input, steps)?;
    Ok(summaries(alloc, meant, ran)?)
}

// Tells them.
fn compare_on<O: Sink>(
    alloc: Global,
    program: &Program,
    image: Image,
    input: Vec<u8>,
    steps: u64,
    turns: u64,
    out: &mut O,
) -> Cause
    requires well_formed { well_formed program.now ≡ true }
    requires form { IsInForm image }
    ensures answers { TellAnswers (both_lines program.now image steps turns input.items) (O.account out.old) (O.account out.new) result }
    ensures plain { IsPlain result }
    ensures rises { (O.account out.old).faults ≤ (O.account out.new).faults }
{
    match compared(alloc, program, image, input, steps, turns) {
        Ok(lines) => print(out, lines.as_slice()),
        Err(Memory) => Cause::Memory,
    }
}

// Compares a program with its image, on the input where some module imports In.
fn compare<I: Source, O: Sink>(
    alloc: Global,
    program: &Program,
    image: Image,
    steps: u64,
    turns: u64,
    input: &mut I,
    out: &mut O,
) -> Cause
    requires well_formed { well_formed program.now ≡ true }
    requires form { IsInForm image }
    ensures answers { (held : Option Held) (faults : ℕ)
        → Answers (λ left. ComparisonComesTo left steps turns program.now image)
        (devices held faults (I.left input.old) (I.faults input.old) (O.account out.old))
        (devices held faults (I.left input.new) (I.faults input.new) (O.account out.new)) result }
    ensures plain { IsPlain result }
    ensures input_rises { I.faults input.old ≤ I.faults input.new }
    ensures out_rises { (O.account out.old).faults ≤ (O.account out.new).faults }
{
    match read_input(alloc, program.imports_in, input) {
        Ok(bytes) => compare_on(alloc, program, image, bytes, steps, turns, out),
        Err(cause) => cause,
    }
}

// Makes the image of texts, and compares their program with it.
fn both_texts<R: Threads + Wait + AllocGlobal + Sync, I: Source, O: Sink, G: Gate>(
    rt: &R,
    texts: &[Items<u8>],
    choice: &Choice,
    steps: u64,
    turns: u64,
    input: &mut I,
    out: &mut O,
    gate: &G,
) -> Ending
    requires choice { IsFitChoice choice.now }
    requires few { length texts.now ≤ 64 }
    ensures answers { (held : Option Held) (faults : ℕ)
        → Answers (λ left. BothComeTo left choice.now steps turns texts.now)
        (devices held faults (I.left input.old) (I.faults input.old) (O.account out.old))
        (devices held faults (I.left input.new) (I.faults input.new) (O.account out.new)) result.cause }
    ensures placed { IsPlaced (IsTextIn texts.now) result.cause result.place }
    ensures input_rises { I.faults input.old ≤ I.faults input.new }
    ensures out_rises { (O.account out.old).faults ≤ (O.account out.new).faults }
{
    let alloc = rt.alloc();
    let program = match program_of(alloc, texts) {
        Ok(program) => program,
        Err(ending) => return ending,
    };
    match image_of_program(rt, alloc, choice, &program, gate) {
        Ok(image) => Ending::of(compare(alloc, &program, image, steps, turns, input, out)),
        Err(fault) => refused(texts, refused_program(fault)),
    }
}

/// Makes the image of the modules in the files of these names, and tells in a line each how what they mean ends with so many turns,
/// and how the machine ends that runs the image with so many steps, on the same input. Their text is refused as where their image is
/// run.
pub fn both<R: Threads + Wait + AllocGlobal + Sync, F: Files, I: Source, O: Sink, G: Gate>(
    rt: &R,
    names: &[&str],
    choice: &Choice,
    steps: u64,
    turns: u64,
    files: &mut F,
    input: &mut I,
    out: &mut O,
    gate: &G,
) -> Ending
    requires { IsFitChoice choice.now }
    ensures answers { Answers (λ left. FilesComeTo (F.held files.old) (map (λ name. name.now) names.now) (BothComeTo left choice.now steps turns))
        (devices (F.held files.old) (F.faults files.old) (I.left input.old) (I.faults input.old) (O.account out.old))
        (devices (F.held files.new) (F.faults files.new) (I.left input.new) (I.faults input.new) (O.account out.new)) result.cause }
    ensures placed { IsPlaced (IsTextHeld (F.held files.old) (map (λ name. name.now) names.now)) result.cause result.place }
    ensures files_rise { F.faults files.old ≤ F.faults files.new }
    ensures input_rises { I.faults input.old ≤ I.faults input.new }
    ensures out_rises { (O.account out.old).faults ≤ (O.account out.new).faults }
{
    match read_texts(rt.alloc(), names, files) {
        Ok(texts) => both_texts(rt, texts.as_slice(), choice, steps, turns, input, out, gate),
        Err(cause) => Ending::of(cause),
    }
}
