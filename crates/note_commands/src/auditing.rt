//! Results in notes are audited, and the image that sound ones make is written to a file.

ghost use Rattle.std.specs.Prelude.{◌≡◌, ◌≤◌, ℕ, List, Option, Some, true, length, map};
ghost use Rattle.ob_types.specs.WellFormed.{well_formed};
ghost use Rattle.ob_types.specs.declared.program.Program.{Program};
ghost use Rattle.note_laws.specs.planned_image.Plans.{IsPlan, IsProgramPlan};
ghost use Rattle.trace_build.specs.declared.builder.Builder.{Builder};
ghost use Rattle.trc_answers.specs.Answers.{Answers, devices};
ghost use Rattle.trc_answers.specs.Causes.{IsPlaced, IsPlain};
ghost use Rattle.trc_answers.specs.Verdict.{IsHeld};
ghost use Rattle.trc_texts.specs.Texts.{IsTextHeld, IsTextIn};
ghost use Rattle.note_commands.specs.Audits.{AuditComesTo, NotesComeTo, PlanComesTo, ResultsComeTo, audit_of, cause_of_audit, cause_of_notes};
ghost use Rattle.note_commands.specs.Reading.{IsContent, IsShort};

use crate::reading::{MOST_NOTES, one_behind, read_notes_file};
use items::Items;
use lir_core::TraceOut;
use note_laws::image_words::Builder;
use note_laws::{AuditFault, ProgramPlan, audited_image, source_plan};
use outside::{Files, Sink};
use std::alloc::Global;
use trace_notes::{NoteFault, read_notes};
use trc_answers::{Cause, Ending, accept_image, read_texts};
use trc_texts::refused;

/// The most modules that a program may have.
const MOST_MODULES: usize = 64;

/// Why results make no image, as a cause.
pub fn not_accepted(fault: AuditFault) -> Cause
    ensures is { result ≡ cause_of_audit fault }
    ensures plain { IsPlain result }
{
    match fault {
        AuditFault::Unsound { trace, node, line } => Cause::Unsound { trace, node, line },
        AuditFault::Code => Cause::Limit {
            number: 54,
            index: 0,
        },
        AuditFault::Memory => Cause::Memory,
    }
}

// Writes the image that results for a plan's traces make, where they are sound.
fn accept_results<F: Files, O: Sink>(
    alloc: Global,
    name: &str,
    regs: u8,
    plan: ProgramPlan,
    outs: Vec<TraceOut>,
    files: &mut F,
    out: &mut O,
) -> Cause
    requires plan { IsPlan plan }
    requires enough { 4 ≤ regs }
    requires few { regs ≤ 16 }
    ensures answers { (builder : Builder) (program : Program) (left : Option (List ℕ)) (input_faults : ℕ) → well_formed program ≡ true
        → IsProgramPlan builder program plan
        → Answers (λ _. ResultsComeTo (audit_of name.now builder regs) program plan outs.items)
        (devices (F.held files.old) (F.faults files.old) left input_faults (O.account out.old))
        (devices (F.held files.new) (F.faults files.new) left input_faults (O.account out.new)) result }
    ensures plain { IsPlain result }
    ensures files_rise { F.faults files.old ≤ F.faults files.new }
    ensures out_rises { (O.account out.old).faults ≤ (O.account out.new).faults }
{
    match audited_image(alloc, plan, regs, outs) {
        Ok(image) => accept_image(alloc, name, &image, files, out),
        Err(fault) => not_accepted(fault),
    }
}

// Why bytes aren't taken for notes.
fn no_notes(fault: NoteFault) -> Cause
    ensures is { result ≡ cause_of_notes fault }
    ensures plain { IsPlain result }
{
    match fault {
        NoteFault::Fault { number, at } => Cause::NotNotes { number, at },
        NoteFault::Limit => Cause::Limit {
            number: 67,
            index: 0,
        },
        NoteFault::Memory => Cause::Memory,
    }
}

// Audits the notes that bytes are.
fn audit_bytes<F: Files, O: Sink>(
    alloc: Global,
    name: &str,
    regs: u8,
    plan: ProgramPlan,
    bytes: &[u8],
    files: &mut F,
    out: &mut O,
) -> Cause
    requires plan { IsPlan plan }
    requires short { length bytes.now ≤ 67108864 }
    requires enough { 4 ≤ regs }
    requires few { regs ≤ 16 }
    ensures answers { (builder : Builder) (program : Program) (left : Option (List ℕ)) (input_faults : ℕ) → well_formed program ≡ true
        → IsProgramPlan builder program plan
        → Answers (λ _. NotesComeTo bytes.now (ResultsComeTo (audit_of name.now builder regs) program plan))
        (devices (F.held files.old) (F.faults files.old) left input_faults (O.account out.old))
        (devices (F.held files.new) (F.faults files.new) left input_faults (O.account out.new)) result }
    ensures plain { IsPlain result }
    ensures files_rise { F.faults files.old ≤ F.faults files.new }
    ensures out_rises { (O.account out.old).faults ≤ (O.account out.new).faults }
{
    match read_notes(alloc, bytes) {
        Ok(outs) => accept_results(alloc, name, regs, plan, outs, files, out),
        Err(fault) => no_notes(fault),
    }
}

// Audits the notes that a file has: these bytes, or more than notes may have.
fn audit_notes<F: Files, O: Sink>(
    alloc: Global,
    name: &str,
    regs: u8,
    plan: ProgramPlan,
    read: Option<Vec<u8>>,
    files: &mut F,
    out: &mut O,
) -> Cause
    requires plan { IsPlan plan }
    requires read { IsShort read }
    requires enough { 4 ≤ regs }
    requires few { regs ≤ 16 }
    ensures answers { (bytes : List ℕ) (builder : Builder) (program : Program) (left : Option (List ℕ)) (input_faults : ℕ) → IsContent read bytes
        → well_formed program ≡ true → IsProgramPlan builder program plan
        → Answers (λ _. NotesComeTo bytes (ResultsComeTo (audit_of name.now builder regs) program plan))
        (devices (F.held files.old) (F.faults files.old) left input_faults (O.account out.old))
        (devices (F.held files.new) (F.faults files.new) left input_faults (O.account out.new)) result }
    ensures plain { IsPlain result }
    ensures files_rise { F.faults files.old ≤ F.faults files.new }
    ensures out_rises { (O.account out.old).faults ≤ (O.account out.new).faults }
{
    match read {
        Some(bytes) => audit_bytes(alloc, name, regs, plan, bytes.as_slice(), files, out),
        None => Cause::NotNotes {
            number: 74,
            at: MOST_NOTES,
        },
    }
}

// Plans texts, and audits the notes of a file for them.
fn audit_texts<F: Files, O: Sink>(
    alloc: Global,
    name: &str,
    builder: Builder,
    regs: u8,
    texts: &[Items<u8>],
    read: Option<Vec<u8>>,
    files: &mut F,
    out: &mut O,
) -> Ending
    requires texts { length texts.now ≤ 64 }
    requires read { IsShort read }
    requires enough { 4 ≤ regs }
    requires few { regs ≤ 16 }
    ensures answers { (bytes : List ℕ) (left : Option (List ℕ)) (input_faults : ℕ) → IsContent read bytes
        → Answers (λ _. PlanComesTo (audit_of name.now builder regs) bytes texts.now)
        (devices (F.held files.old) (F.faults files.old) left input_faults (O.account out.old))
        (devices (F.held files.new) (F.faults files.new) left input_faults (O.account out.new)) result.cause }
    ensures placed { IsPlaced (IsTextIn texts.now) result.cause result.place }
    ensures files_rise { F.faults files.old ≤ F.faults files.new }
    ensures out_rises { (O.account out.old).faults ≤ (O.account out.new).faults }
{
    match source_plan(alloc, builder, texts) {
        Ok(plan) => Ending::of(audit_notes(alloc, name, regs, plan, read, files, out)),
        Err(refusal) => refused(texts, refusal),
    }
}

// Reads the modules, behind the notes, and audits these for them.
fn audit_files<F: Files, O: Sink>(
    alloc: Global,
    name: &str,
    builder: Builder,
    regs: u8,
    names: &[&str],
    read: Option<Vec<u8>>,
    files: &mut F,
    out: &mut O,
) -> Ending
    requires modules { length names.now ≤ 64 }
    requires read { IsShort read }
    requires enough { 4 ≤ regs }
    requires few { regs ≤ 16 }
    ensures answers { (notes bytes : List ℕ) (left : Option (List ℕ)) (input_faults : ℕ) → IsHeld (F.held files.old) notes (Some bytes) → IsContent read bytes
        → Answers (λ _. AuditComesTo (F.held files.old) (audit_of name.now builder regs) notes (map (λ name. name.now) names.now))
        (devices (F.held files.old) (F.faults files.old) left input_faults (O.account out.old))
        (devices (F.held files.new) (F.faults files.new) left input_faults (O.account out.new)) result.cause }
    ensures placed { IsPlaced (IsTextHeld (F.held files.old) (map (λ name. name.now) names.now)) result.cause result.place }
    ensures files_rise { F.faults files.old ≤ F.faults files.new }
    ensures out_rises { (O.account out.old).faults ≤ (O.account out.new).faults }
{
    match read_texts(alloc, names, files) {
        Ok(texts) => audit_texts(
            alloc,
            name,
            builder,
            regs,
            texts.as_slice(),
            read,
            files,
            out,
        ),
        Err(cause) => Ending::of(one_behind(cause)),
    }
}

/// Audits the notes that the file `notes` holds for the traces by a builder of the modules in the files of these names, over so many
/// registers. Where they are sound, the image that they make is written to the file of the first name, and then `sound` is printed.
/// The notes are read before the modules, and judged behind them.
pub fn audit<F: Files, O: Sink>(
    alloc: Global,
    name: &str,
    notes: &str,
    names: &[&str],
    builder: Builder,
    regs: u8,
    files: &mut F,
    out: &mut O,
) -> Ending
    requires enough { 4 ≤ regs }
    requires few { regs ≤ 16 }
    ensures answers { (left : Option (List ℕ)) (input_faults : ℕ)
        → Answers (λ _. AuditComesTo (F.held files.old) (audit_of name.now builder regs) notes.now (map (λ name. name.now) names.now))
        (devices (F.held files.old) (F.faults files.old) left input_faults (O.account out.old))
        (devices (F.held files.new) (F.faults files.new) left input_faults (O.account out.new)) result.cause }
    ensures placed { IsPlaced (IsTextHeld (F.held files.old) (map (λ name. name.now) names.now)) result.cause result.place }
    ensures files_rise { F.faults files.old ≤ F.faults files.new }
    ensures out_rises { (O.account out.old).faults ≤ (O.account out.new).faults }
{
    if names.len() > MOST_MODULES {
        return Ending::of(Cause::Limit {
            number: 56,
            index: 0,
        });
    }
    match read_notes_file(alloc, notes, files) {
        Ok(read) => audit_files(alloc, name, builder, regs, names, read, files, out),
        Err(cause) => Ending::of(cause),
    }
}
