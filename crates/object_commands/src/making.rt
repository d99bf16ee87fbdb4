//! Modules are read, and the object of the last one is written to a file.

ghost use Rattle.std.specs.Prelude.{◌≤◌, ℕ, List, Option, length, map, IfOk, IfErr};
ghost use Rattle.outside.specs.Sink.{Account};
ghost use Rattle.note_commands.specs.words.alloc_choice.Choice.{IsFitChoice};
ghost use Rattle.note_commands.specs.words.source_image.Refusals.{IsRefusalOfTraces};
ghost use Rattle.object_form.specs.Objects.{IsWritable};
ghost use Rattle.object_laws.specs.module_object.Objects.{IsObjectOfTexts};
ghost use Rattle.trc_answers.specs.Answers.{Answers, devices};
ghost use Rattle.trc_answers.specs.Causes.{IsPlaced, IsPlain};
ghost use Rattle.trc_answers.specs.Reading.{FilesComeTo};
ghost use Rattle.note_commands.specs.trc_texts.Texts.{IsRefusedAs, IsTextHeld, IsTextIn};
ghost use Rattle.object_commands.specs.Objects.{IsStored, ObjectComesTo};

use items::Items;
use note_commands::refused;
use object_form::{ObjectFault, write_object};
use object_laws::image_words::Choice;
use object_laws::{Object, module_object};
use outside::{Files, Gate};
use std::alloc::{AllocGlobal, Global};
use std::sync::Wait;
use std::thread::Threads;
use trc_answers::{Cause, Ending, read_texts, write_file};

// The object of the last of some texts, of which there are at most 64.
fn made_object<R: Threads + Wait + Sync, G: Gate>(
    rt: &R,
    alloc: Global,
    choice: &Choice,
    texts: &[Items<u8>],
    gate: &G,
) -> Result<Object, Ending>
    requires choice { IsFitChoice choice.now }
    requires few { length texts.now ≤ 64 }
    ensures object { IfOk result (IsObjectOfTexts choice.now texts.now) }
    ensures writable { IfOk result IsWritable }
    ensures refused { IfErr result (λ ending. IsRefusedAs (IsRefusalOfTraces choice.now texts.now) ending.cause) }
    ensures placed { IfErr result (λ ending. IsPlaced (IsTextIn texts.now) ending.cause ending.place) }
{
    match module_object(rt, alloc, choice, texts, gate) {
        Ok(object) => Ok(object),
        Err(refusal) => Err(refused(texts, refusal)),
    }
}

// Writes the bytes of an object to the file of this name, unless they are too many.
fn store<F: Files>(alloc: Global, out: &str, object: &Object, files: &mut F) -> Cause
    requires { IsWritable object.now }
    ensures answers { (left : Option (List ℕ)) (faults : ℕ) (output : Account)
        → Answers (λ _. IsStored out.now object.now)
        (devices (F.held files.old) (F.faults files.old) left faults output)
        (devices (F.held files.new) (F.faults files.new) left faults output) result }
    ensures plain { IsPlain result }
    ensures rises { F.faults files.old ≤ F.faults files.new }
{
    match write_object(alloc, object) {
        Ok(bytes) => write_file(alloc, out, bytes.as_slice(), files),
        Err(ObjectFault::Limit) => Cause::Limit {
            number: 68,
            index: 0,
        },
        Err(_) => Cause::Memory,
    }
}

// Writes the object of the last of some texts to the file of this name.
fn store_of_texts<R: Threads + Wait + AllocGlobal + Sync, F: Files, G: Gate>(
    rt: &R,
    out: &str,
    texts: &[Items<u8>],
    choice: &Choice,
    files: &mut F,
    gate: &G,
) -> Ending
    requires choice { IsFitChoice choice.now }
    requires few { length texts.now ≤ 64 }
    ensures answers { (left : Option (List ℕ)) (faults : ℕ) (output : Account)
        → Answers (λ _. ObjectComesTo choice.now out.now texts.now)
        (devices (F.held files.old) (F.faults files.old) left faults output)
        (devices (F.held files.new) (F.faults files.new) left faults output) result.cause }
    ensures placed { IsPlaced (IsTextIn texts.now) result.cause result.place }
    ensures rises { F.faults files.old ≤ F.faults files.new }
{
    match made_object(rt, rt.alloc(), choice, texts, gate) {
        Ok(object) => Ending::of(store(rt.alloc(), out, &object, files)),
        Err(ending) => ending,
    }
}

/// Reads the files of these names, and writes the object of the last one's module to the file `out`: its text, and the results by the
/// choice of its procedures' traces, behind the modules of the other files. It is written last.
pub fn object<R: Threads + Wait + AllocGlobal + Sync, F: Files, G: Gate>(
    rt: &R,
    out: &str,
    names: &[&str],
    choice: &Choice,
    files: &mut F,
    gate: &G,
) -> Ending
    requires { IsFitChoice choice.now }
    ensures answers { (left : Option (List ℕ)) (faults : ℕ) (output : Account)
        → Answers (λ _. FilesComeTo (F.held files.old) (map (λ name. name.now) names.now) (ObjectComesTo choice.now out.now))
        (devices (F.held files.old) (F.faults files.old) left faults output)
        (devices (F.held files.new) (F.faults files.new) left faults output) result.cause }
    ensures placed { IsPlaced (IsTextHeld (F.held files.old) (map (λ name. name.now) names.now)) result.cause result.place }
    ensures rises { F.faults files.old ≤ F.faults files.new }
{
    match read_texts(rt.alloc(), names, files) {
        Ok(texts) => store_of_texts(rt, out, texts.as_slice(), choice, files, gate),
        Err(cause) => Ending::of(cause),
    }
}
