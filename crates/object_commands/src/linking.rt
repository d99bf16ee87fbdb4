//! Objects are linked, and the image that their results make is written to a file.

ghost use Rattle.std.specs.Prelude.{◌≡◌, ◌≤◌, ℕ, List, All, Option, true, length, map};
ghost use Rattle.outside.specs.Sink.{Account};
ghost use Rattle.ob_types.specs.WellFormed.{well_formed};
ghost use Rattle.ob_types.specs.declared.program.Program.{Program};
ghost use Rattle.trace_build.specs.declared.builder.Builder.{Builder};
ghost use Rattle.note_commands.specs.planned_image.Plans.{IsPlan, IsProgramPlan};
ghost use Rattle.object_form.specs.Objects.{IsObject};
ghost use Rattle.obj_link.specs.Joining.{texts_of};
ghost use Rattle.trc_answers.specs.Answers.{Answers, devices};
ghost use Rattle.trc_answers.specs.Causes.{IsPlaced, IsPlain};
ghost use Rattle.trc_answers.specs.Verdict.{Written};
ghost use Rattle.note_commands.specs.trc_texts.Texts.{IsTextIn};
ghost use Rattle.note_commands.specs.Audits.{AuditedComeTo};
ghost use Rattle.object_commands.specs.Links.{ContentsComeTo, IsTextOfObject, JoinedComeTo, LinkComesTo, ObjectsComeTo, cause_of_join};
ghost use Rattle.object_commands.specs.Reading.{AreContents, AreFew, IsTextIn as IsTextOfContents};

use crate::reading::{Contents, read_contents};
use items::Items;
use lir_core::TraceOut;
use note_commands::image_words::Builder;
use note_commands::{ProgramPlan, audited_image, not_accepted, refused, source_plan};
use obj_link::{JoinFault, Joined, Object, join};
use outside::Files;
use std::alloc::Global;
use trc_answers::{Cause, Ending, write_image_file};

/// The most objects that are linked.
const MOST_OBJECTS: usize = 64;

// Writes the image that results for a plan's traces make, where they are sound.
fn link_results<F: Files>(
    alloc: Global,
    out: &str,
    regs: u8,
    plan: ProgramPlan,
    outs: Vec<TraceOut>,
    files: &mut F,
) -> Cause
    requires plan { IsPlan plan }
    requires enough { 4 ≤ regs }
    requires few { regs ≤ 16 }
    ensures answers { (builder : Builder) (program : Program) (left : Option (List ℕ)) (faults : ℕ) (output : Account)
        → well_formed program ≡ true → IsProgramPlan builder program plan
        → Answers (λ _. AuditedComeTo builder regs (Written out.now) program plan outs.items)
        (devices (F.held files.old) (F.faults files.old) left faults output)
        (devices (F.held files.new) (F.faults files.new) left faults output) result }
    ensures plain { IsPlain result }
    ensures rises { F.faults files.old ≤ F.faults files.new }
{
    match audited_image(alloc, plan, regs, outs) {
        Ok(image) => write_image_file(alloc, out, &image, files),
        Err(fault) => not_accepted(fault),
    }
}

// Plans the texts of objects, and writes the image that their results make.
fn link_texts<F: Files>(
    alloc: Global,
    out: &str,
    builder: Builder,
    regs: u8,
    texts: &[Items<u8>],
    outs: Vec<TraceOut>,
    files: &mut F,
) -> Ending
    requires texts { length texts.now ≤ 64 }
    requires enough { 4 ≤ regs }
    requires few { regs ≤ 16 }
    ensures answers { (left : Option (List ℕ)) (faults : ℕ) (output : Account)
        → Answers (λ _. JoinedComeTo out.now builder regs texts.now outs.items)
        (devices (F.held files.old) (F.faults files.old) left faults output)
        (devices (F.held files.new) (F.faults files.new) left faults output) result.cause }
    ensures placed { IsPlaced (IsTextIn texts.now) result.cause result.place }
    ensures rises { F.faults files.old ≤ F.faults files.new }
{
    match source_plan(alloc, builder, texts) {
        Ok(plan) => Ending::of(link_results(alloc, out, regs, plan, outs, files)),
        Err(refusal) => refused(texts, refusal),
    }
}

// Why objects aren't joined, as a cause.
fn not_joined(fault: JoinFault) -> Cause
    ensures is { result ≡ cause_of_join fault }
    ensures plain { IsPlain result }
{
    match fault {
        JoinFault::OtherChoice { object } => Cause::OtherChoice { object },
        JoinFault::Memory => Cause::Memory,
    }
}

// Joins objects, and writes the image that their results make.
fn link_objects<F: Files>(alloc: Global, out: &str, objects: Vec<Object>, files: &mut F) -> Ending
    requires some { 1 ≤ length objects.items }
    requires few { length objects.items ≤ 64 }
    requires objects { All IsObject objects.items }
    ensures answers { (left : Option (List ℕ)) (faults : ℕ) (output : Account)
        → Answers (λ _. ObjectsComeTo out.now objects.items)
        (devices (F.held files.old) (F.faults files.old) left faults output)
        (devices (F.held files.new) (F.faults files.new) left faults output) result.cause }
    ensures placed { IsPlaced (IsTextIn (texts_of objects.items)) result.cause result.place }
    ensures rises { F.faults files.old ≤ F.faults files.new }
{
    match join(alloc, objects) {
        Ok(joined) => {
            let Joined {
                builder,
                regs,
                texts,
                outs,
                ..
            } = joined;
            link_texts(alloc, out, builder, regs, texts.as_slice(), outs, files)
        }
        Err(fault) => Ending::of(not_joined(fault)),
    }
}

// Links what files hold, of which there are 1 to 64.
fn link_contents<F: Files>(alloc: Global, out: &str, read: Contents, files: &mut F) -> Ending
    requires { AreFew read }
    ensures answers { (contents : List (List ℕ)) (left : Option (List ℕ)) (faults : ℕ) (output : Account) → AreContents contents read
        → Answers (λ _. ContentsComeTo out.now contents)
        (devices (F.held files.old) (F.faults files.old) left faults output)
        (devices (F.held files.new) (F.faults files.new) left faults output) result.cause }
    ensures placed { IsPlaced (IsTextOfContents read) result.cause result.place }
    ensures rises { F.faults files.old ≤ F.faults files.new }
{
    match read {
        Contents::Objects(objects) => link_objects(alloc, out, objects, files),
        Contents::NotObject { word, number, at } => {
            Ending::of(Cause::NotObject { word, number, at })
        }
    }
}

/// Links the objects that the files of these names hold, of which there is one at least: their texts, in this order, are planned, their
/// results are audited, whoever made them, and the image that sound ones make is written to the file `out`, last of all.
pub fn link<F: Files>(alloc: Global, out: &str, names: &[&str], files: &mut F) -> Ending
    requires { 1 ≤ length names.now }
    ensures answers { (left : Option (List ℕ)) (faults : ℕ) (output : Account)
        → Answers (λ _. LinkComesTo (F.held files.old) out.now (map (λ name. name.now) names.now))
        (devices (F.held files.old) (F.faults files.old) left faults output)
        (devices (F.held files.new) (F.faults files.new) left faults output) result.cause }
    ensures placed { IsPlaced (IsTextOfObject (F.held files.old) (map (λ name. name.now) names.now)) result.cause result.place }
    ensures rises { F.faults files.old ≤ F.faults files.new }
{
    if names.len() > MOST_OBJECTS {
        return Ending::of(Cause::Limit {
            number: 56,
            index: 0,
        });
    }
    match read_contents(alloc, names, files) {
        Ok(read) => link_contents(alloc, out, read, files),
        Err(cause) => Ending::of(cause),
    }
}
