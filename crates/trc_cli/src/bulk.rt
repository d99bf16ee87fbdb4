//! A module is made, compiled and run, and what came of it is told.

ghost use Rattle.std.specs.Prelude.{◌≡◌, ◌≤◌, ◌++◌, ◌∷◌, [], ℕ, List, Option, OnOk, IfOk};
ghost use Rattle.object_commands.specs.words.alloc_choice.Choice.{IsFitChoice};
ghost use Rattle.outside.specs.Files.{Held};
ghost use Rattle.image_form.specs.Form.{IsInForm};
ghost use Rattle.bulk_text.specs.Bulk.{bulk_text};
ghost use Rattle.trc_answers.specs.Answers.{Answers, devices};
ghost use Rattle.trc_answers.specs.Causes.{IsPlaced, IsPlain};
ghost use Rattle.trc_answers.specs.Verdict.{Prints};
ghost use Rattle.trc_cli.specs.Commands.{IsTextIn, SummaryComesTo, TextsComeTo, count_line, counts_of, counts_text, summary_of};
ghost use Rattle.trc_cli.specs.declared.bulk.Counts.{Counts};

use bulk_text::bulk_text;
use items::Items;
use memory_devices::MemSink;
use object_commands::image_words::{Choice, Compiled};
use object_commands::{Scaffolds, compile, image_alone};
use outside::{Gate, Sink};
use std::alloc::{AllocError, AllocGlobal, Global};
use std::sync::Wait;
use std::thread::Threads;
use trc_answers::{Cause, Ending, print, run_on};

/// How much a made module may write; it writes one number and a line's end.
const ROOM: usize = 4096;

/// What is counted of a made module: its procedures, its body among them, their traces, and the words of its code.
#[derive(Clone, Copy)]
struct Counts {
    procedures: u64,
    traces: u64,
    words: u64,
}

// The counts of an image.
fn counted(made: &Compiled) -> Counts
    ensures { result ≡ counts_of made.now }
{
    Counts {
        procedures: made.procedures as u64,
        traces: u64::from(made.traces),
        words: made.image.code.as_slice().len() as u64,
    }
}

// Appends a line of a count.
fn put_count(alloc: Global, text: &mut Vec<u8>, name: &[u8], number: u64) -> Result<(), AllocError>
    ensures { OnOk result (text.new.items ≡ text.old.items ++ count_line name.now number) }
{
    text.extend_from_slice(name)?;
    let digits = format!(in alloc; "{number}")?;
    text.extend_from_slice(digits.as_bytes())?;
    text.push(b'\n')?;
    Ok(())
}

// The lines of counts.
fn count_lines(alloc: Global, counts: Counts) -> Result<Vec<u8>, AllocError>
    ensures { IfOk result (λ lines. lines.items ≡ counts_text counts) }
{
    let mut lines = Vec::new(alloc);
    put_count(alloc, &mut lines, b"procedures ", counts.procedures)?;
    put_count(alloc, &mut lines, b"traces ", counts.traces)?;
    put_count(alloc, &mut lines, b"words ", counts.words)?;
    Ok(lines)
}

// All lines, with what the module wrote.
fn summary(alloc: Global, counts: Counts, written: &[u8]) -> Result<Vec<u8>, AllocError>
    ensures { IfOk result (λ lines. lines.items ≡ summary_of counts written.now) }
{
    let mut lines = count_lines(alloc, counts)?;
    lines.extend_from_slice(b"output ")?;
    lines.extend_from_slice(written)?;
    Ok(lines)
}

// Runs an image on no input, and tells what came of it where it ends.
fn run_and_tell<O: Sink>(
    alloc: Global,
    made: Compiled,
    steps: u64,
    out: &mut O,
    scaffolds: Scaffolds,
) -> Cause
    requires { IsInForm made.image }
    ensures answers { (held : Option Held) (faults : ℕ) (left : Option (List ℕ)) (input_faults : ℕ)
        → Answers (λ _. SummaryComesTo steps made) (devices held faults left input_faults (O.account out.old))
        (devices held faults left input_faults (O.account out.new)) result }
    ensures plain { IsPlain result }
    ensures rises { (O.account out.old).faults ≤ (O.account out.new).faults }
{
    let counts = counted(&made);
    let Ok(mut written) = MemSink::new(alloc, ROOM, ROOM, Vec::new(alloc)) else {
        return Cause::Memory;
    };
    match run_on(
        alloc,
        image_alone(made, scaffolds),
        Vec::new(alloc),
        steps,
        &mut written,
    ) {
        Cause::Done => tell(alloc, counts, written.bytes(), out),
        Cause::WriteFault { .. } => Cause::Memory,
        cause => cause,
    }
}

// Tells what came of a run that ended.
fn tell<O: Sink>(alloc: Global, counts: Counts, written: &[u8], out: &mut O) -> Cause
    ensures answers { (held : Option Held) (faults : ℕ) (left : Option (List ℕ)) (input_faults : ℕ)
        → Answers (λ _ verdict. verdict ≡ Prints (summary_of counts written.now)) (devices held faults left input_faults (O.account out.old))
        (devices held faults left input_faults (O.account out.new)) result }
    ensures plain { IsPlain result }
    ensures rises { (O.account out.old).faults ≤ (O.account out.new).faults }
{
    match summary(alloc, counts, written) {
        Ok(lines) => print(out, lines.as_slice()),
        Err(AllocError) => Cause::Memory,
    }
}

/// Makes a module of a seed and a size, compiles it, and runs its image on no input; tells how many procedures, traces and words
/// there are, and what it wrote.
pub(crate) fn bulk<R: Threads + Wait + AllocGlobal + Sync, O: Sink, G: Gate>(
    rt: &R,
    seed: u64,
    size: u32,
    choice: &Choice,
    steps: u64,
    out: &mut O,
    gate: &G,
    scaffolds: Scaffolds,
) -> Ending
    requires some { 1 ≤ size }
    requires choice { IsFitChoice choice.now }
    ensures answers { (held : Option Held) (faults : ℕ) (left : Option (List ℕ)) (input_faults : ℕ)
        → Answers (λ _. TextsComeTo choice.now (SummaryComesTo steps) (bulk_text seed size ∷ []))
        (devices held faults left input_faults (O.account out.old)) (devices held faults left input_faults (O.account out.new)) result.cause }
    ensures placed { IsPlaced (IsTextIn (bulk_text seed size ∷ [])) result.cause result.place }
    ensures rises { (O.account out.old).faults ≤ (O.account out.new).faults }
{
    let Ok(text) = bulk_text(rt.alloc(), seed, size) else {
        return Ending::of(Cause::Memory);
    };
    match compile(rt, rt.alloc(), choice, &[Items::from_vec(text)], gate) {
        Ok(made) => Ending::of(run_and_tell(rt.alloc(), made, steps, out, scaffolds)),
        Err(ending) => ending,
    }
}
