//! A program is compared under all choices.

ghost use Rattle.std.specs.Prelude.{◌≤◌, ℕ, Option, All, length, map};
ghost use Rattle.outside.specs.Files.{Held};
ghost use Rattle.trc_answers.specs.Answers.{Answers, devices};
ghost use Rattle.trc_answers.specs.Causes.{IsPlaced, IsPlain};
ghost use Rattle.trc_answers.specs.Reading.{FilesComeTo};
ghost use Rattle.meaning_commands.specs.trc_texts.Texts.{IsTextHeld, IsTextIn};
ghost use Rattle.meaning_commands.specs.Comparisons.{TellAnswers};
ghost use Rattle.compare_commands.specs.Compares.{ComparesComeTo, TableComesTo};
ghost use Rattle.compare_commands.specs.Rows.{IsFormed};
ghost use Rattle.compare_commands.specs.Tables.{table_lines};

use crate::rows::{Row, rows_of};
use crate::tables::table_of;
use items::Items;
use meaning_commands::{program_of, read_input, refused};
use outside::{Files, Gate, Memory, Sink, Source};
use program_figures::image_words::refused_program;
use program_figures::program_flows;
use std::alloc::{AllocGlobal, Global};
use std::sync::Wait;
use std::thread::Threads;
use trc_answers::{Cause, Ending, print, read_texts};

// Tells the table of some rows.
fn tell_on<O: Sink>(alloc: Global, rows: Vec<Row>, input: &[u8], steps: u64, out: &mut O) -> Cause
    requires { All (λ row. IsFormed row.outcome) rows.items }
    ensures answers { TellAnswers (table_lines steps input.now rows.items) (O.account out.old) (O.account out.new) result }
    ensures plain { IsPlain result }
    ensures rises { (O.account out.old).faults ≤ (O.account out.new).faults }
{
    match table_of(alloc, rows, input, steps) {
        Ok(lines) => print(out, lines.as_slice()),
        Err(Memory) => Cause::Memory,
    }
}

// Tells it, on the input where it is wanted.
fn tell_rows<I: Source, O: Sink>(
    alloc: Global,
    wanted: bool,
    rows: Vec<Row>,
    steps: u64,
    input: &mut I,
    out: &mut O,
) -> Cause
    requires { All (λ row. IsFormed row.outcome) rows.items }
    ensures answers { (held : Option Held) (faults : ℕ)
        → Answers (λ left. TableComesTo left wanted steps rows.items)
        (devices held faults (I.left input.old) (I.faults input.old) (O.account out.old))
        (devices held faults (I.left input.new) (I.faults input.new) (O.account out.new)) result }
    ensures plain { IsPlain result }
    ensures input_rises { I.faults input.old ≤ I.faults input.new }
    ensures out_rises { (O.account out.old).faults ≤ (O.account out.new).faults }
{
    match read_input(alloc, wanted, input) {
        Ok(bytes) => tell_on(alloc, rows, bytes.as_slice(), steps, out),
        Err(cause) => cause,
    }
}

// Compiles texts by all choices, and tells what comes of these.
fn compare_texts<R: Threads + Wait + AllocGlobal + Sync, I: Source, O: Sink, G: Gate>(
    rt: &R,
    texts: &[Items<u8>],
    jobs: u32,
    steps: u64,
    input: &mut I,
    out: &mut O,
    gate: &G,
) -> Ending
    requires some_jobs { 1 ≤ jobs }
    requires few_jobs { jobs ≤ 64 }
    requires few { length texts.now ≤ 64 }
    ensures answers { (held : Option Held) (faults : ℕ)
        → Answers (λ left. ComparesComeTo left jobs steps texts.now)
        (devices held faults (I.left input.old) (I.faults input.old) (O.account out.old))
        (devices held faults (I.left input.new) (I.faults input.new) (O.account out.new)) result.cause }
    ensures placed { IsPlaced (IsTextIn texts.now) result.cause result.place }
    ensures input_rises { I.faults input.old ≤ I.faults input.new }
    ensures out_rises { (O.account out.old).faults ≤ (O.account out.new).faults }
{
    let alloc = rt.alloc();
    let program = match program_of(alloc, texts) {
        Ok(program) => program,
        Err(ending) => return ending,
    };
    let flows = match program_flows(alloc, &program) {
        Ok(flows) => flows,
        Err(fault) => return refused(texts, refused_program(fault)),
    };
    match rows_of(rt, alloc, jobs, &flows, gate) {
        Ok(rows) => Ending::of(tell_rows(alloc, program.imports_in, rows, steps, input, out)),
        Err(Memory) => Ending::of(Cause::Memory),
    }
}

/// Compiles the modules in the files of these names by each choice that is compared, runs each image on the same input with so many
/// steps, and tells a table with a row for each choice: what its code comes to, how many steps the run takes and how it ends. Where a
/// choice passes a limit, its row tells the limit; a rule that is broken, or a limit that holds for every choice, refuses the command.
pub fn compare<R: Threads + Wait + AllocGlobal + Sync, F: Files, I: Source, O: Sink, G: Gate>(
    rt: &R,
    names: &[&str],
    jobs: u32,
    steps: u64,
    files: &mut F,
    input: &mut I,
    out: &mut O,
    gate: &G,
) -> Ending
    requires some_jobs { 1 ≤ jobs }
    requires few_jobs { jobs ≤ 64 }
    ensures answers { Answers (λ left. FilesComeTo (F.held files.old) (map (λ name. name.now) names.now) (ComparesComeTo left jobs steps))
        (devices (F.held files.old) (F.faults files.old) (I.left input.old) (I.faults input.old) (O.account out.old))
        (devices (F.held files.new) (F.faults files.new) (I.left input.new) (I.faults input.new) (O.account out.new)) result.cause }
    ensures placed { IsPlaced (IsTextHeld (F.held files.old) (map (λ name. name.now) names.now)) result.cause result.place }
    ensures files_rise { F.faults files.old ≤ F.faults files.new }
    ensures input_rises { I.faults input.old ≤ I.faults input.new }
    ensures out_rises { (O.account out.old).faults ≤ (O.account out.new).faults }
{
    match read_texts(rt.alloc(), names, files) {
        Ok(texts) => compare_texts(rt, texts.as_slice(), jobs, steps, input, out, gate),
        Err(cause) => Ending::of(cause),
    }
}
