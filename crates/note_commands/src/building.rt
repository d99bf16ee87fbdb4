//! Modules are compiled, and their image and notes are written to two files.

ghost use Rattle.std.specs.Prelude.{◌≤◌, ℕ, List, Option, length, map, IfOk, IfErr};
ghost use Rattle.note_laws.specs.words.alloc_choice.Choice.{IsFitChoice};
ghost use Rattle.outside.specs.Sink.{Account};
ghost use Rattle.note_laws.specs.words.source_image.Refusals.{IsRefusalOf};
ghost use Rattle.note_laws.specs.noted_image.Faults.{TellsWithNotes};
ghost use Rattle.note_laws.specs.noted_image.Notes.{IsNotedImageOfTexts};
ghost use Rattle.trc_answers.specs.Answers.{Answers, devices};
ghost use Rattle.trc_answers.specs.Causes.{IsPlaced};
ghost use Rattle.trc_answers.specs.Reading.{FilesComeTo};
ghost use Rattle.trc_texts.specs.Texts.{IsRefusedAs, IsTextHeld, IsTextIn};
ghost use Rattle.note_commands.specs.Noted.{NotedAnewComeTo, NotedComeTo, NotesRenewed, NotesWritten};

use items::Items;
use note_laws::image_words::Choice;
use note_laws::{NotedImage, source_noted};
use outside::{Files, Gate};
use std::alloc::{AllocGlobal, Global};
use std::sync::Wait;
use std::thread::Threads;
use trc_answers::{Ending, read_image_file, read_texts, renew_image_with, write_image_with};
use trc_texts::refused;

// The image of texts by a choice with its notes.
fn compile_noted<R: Threads + Wait + Sync, G: Gate>(
    rt: &R,
    alloc: Global,
    choice: &Choice,
    texts: &[Items<u8>],
    gate: &G,
) -> Result<NotedImage, Ending>
    requires choice { IsFitChoice choice.now }
    requires few { length texts.now ≤ 64 }
    ensures image { IfOk result (IsNotedImageOfTexts choice.now texts.now) }
    ensures refused { IfErr result (λ ending. IsRefusedAs (IsRefusalOf (TellsWithNotes choice.now) texts.now) ending.cause) }
    ensures placed { IfErr result (λ ending. IsPlaced (IsTextIn texts.now) ending.cause ending.place) }
{
    match source_noted(rt, alloc, choice, texts, gate) {
        Ok(made) => Ok(made),
        Err(refusal) => Err(refused(texts, refusal)),
    }
}

// Compiles texts, and writes their image to a file and their notes to another.
fn write_noted<R: Threads + Wait + AllocGlobal + Sync, F: Files, G: Gate>(
    rt: &R,
    out: &str,
    name: &str,
    texts: &[Items<u8>],
    choice: &Choice,
    files: &mut F,
    gate: &G,
) -> Ending
    requires choice { IsFitChoice choice.now }
    requires few { length texts.now ≤ 64 }
    ensures answers { (left : Option (List ℕ)) (faults : ℕ) (output : Account)
        → Answers (λ _. NotedComeTo choice.now (NotesWritten out.now name.now) texts.now)
        (devices (F.held files.old) (F.faults files.old) left faults output)
        (devices (F.held files.new) (F.faults files.new) left faults output) result.cause }
    ensures placed { IsPlaced (IsTextIn texts.now) result.cause result.place }
    ensures rises { F.faults files.old ≤ F.faults files.new }
{
    match compile_noted(rt, rt.alloc(), choice, texts, gate) {
        Ok(made) => Ending::of(write_image_with(
            rt.alloc(),
            out,
            &made.image,
            name,
            made.notes.as_slice(),
            files,
        )),
        Err(ending) => ending,
    }
}

/// Compiles the files of these names, and writes their image to the file `out`, and then the notes of the results behind it to the
/// file `name`. Both are written last.
pub fn build_with_notes<R: Threads + Wait + AllocGlobal + Sync, F: Files, G: Gate>(
    rt: &R,
    out: &str,
    name: &str,
    names: &[&str],
    choice: &Choice,
    files: &mut F,
    gate: &G,
) -> Ending
    requires { IsFitChoice choice.now }
    ensures answers { (left : Option (List ℕ)) (faults : ℕ) (output : Account)
        → Answers (λ _. FilesComeTo (F.held files.old) (map (λ name. name.now) names.now)
        (NotedComeTo choice.now (NotesWritten out.now name.now)))
        (devices (F.held files.old) (F.faults files.old) left faults output)
        (devices (F.held files.new) (F.faults files.new) left faults output) result.cause }
    ensures placed { IsPlaced (IsTextHeld (F.held files.old) (map (λ name. name.now) names.now)) result.cause result.place }
    ensures rises { F.faults files.old ≤ F.faults files.new }
{
    match read_texts(rt.alloc(), names, files) {
        Ok(texts) => write_noted(rt, out, name, texts.as_slice(), choice, files, gate),
        Err(cause) => Ending::of(cause),
    }
}

// Compiles texts, and writes their image and notes where these bytes are the image's in version 1.
fn renew_noted<R: Threads + Wait + AllocGlobal + Sync, F: Files, G: Gate>(
    rt: &R,
    out: &str,
    name: &str,
    bytes: &[u8],
    texts: &[Items<u8>],
    choice: &Choice,
    files: &mut F,
    gate: &G,
) -> Ending
    requires choice { IsFitChoice choice.now }
    requires few { length texts.now ≤ 64 }
    ensures answers { (left : Option (List ℕ)) (faults : ℕ) (output : Account)
        → Answers (λ _. NotedComeTo choice.now (NotesRenewed out.now name.now bytes.now) texts.now)
        (devices (F.held files.old) (F.faults files.old) left faults output)
        (devices (F.held files.new) (F.faults files.new) left faults output) result.cause }
    ensures placed { IsPlaced (IsTextIn texts.now) result.cause result.place }
    ensures rises { F.faults files.old ≤ F.faults files.new }
{
    match compile_noted(rt, rt.alloc(), choice, texts, gate) {
        Ok(made) => Ending::of(renew_image_with(
            rt.alloc(),
            out,
            bytes,
            &made.image,
            name,
            made.notes.as_slice(),
            files,
        )),
        Err(ending) => ending,
    }
}

// Reads the file of an image, the one of this number, and builds the image and the notes of texts anew from it.
fn texts_anew<R: Threads + Wait + AllocGlobal + Sync, F: Files, G: Gate>(
    rt: &R,
    out: &str,
    name: &str,
    from: &str,
    number: u32,
    texts: &[Items<u8>],
    choice: &Choice,
    files: &mut F,
    gate: &G,
) -> Ending
    requires choice { IsFitChoice choice.now }
    requires few { length texts.now ≤ 64 }
    ensures answers { (left : Option (List ℕ)) (faults : ℕ) (output : Account)
        → Answers (λ _. NotedAnewComeTo (F.held files.old) choice.now out.now name.now from.now number texts.now)
        (devices (F.held files.old) (F.faults files.old) left faults output)
        (devices (F.held files.new) (F.faults files.new) left faults output) result.cause }
    ensures placed { IsPlaced (IsTextIn texts.now) result.cause result.place }
    ensures rises { F.faults files.old ≤ F.faults files.new }
{
    match read_image_file(rt.alloc(), number, from, files) {
        Ok(bytes) => renew_noted(rt, out, name, bytes.as_slice(), texts, choice, files, gate),
        Err(cause) => Ending::of(cause),
    }
}

/// The same as `build_with_notes` where the file `from` holds the image in version 1. That file is read behind the modules', before
/// these are compiled.
pub fn build_anew_with_notes<R: Threads + Wait + AllocGlobal + Sync, F: Files, G: Gate>(
    rt: &R,
    out: &str,
    name: &str,
    names: &[&str],
    from: &str,
    choice: &Choice,
    files: &mut F,
    gate: &G,
) -> Ending
    requires { IsFitChoice choice.now }
    ensures answers { (left : Option (List ℕ)) (faults : ℕ) (output : Account)
        → Answers (λ _. FilesComeTo (F.held files.old) (map (λ name. name.now) names.now)
        (NotedAnewComeTo (F.held files.old) choice.now out.now name.now from.now (length names.now)))
        (devices (F.held files.old) (F.faults files.old) left faults output)
        (devices (F.held files.new) (F.faults files.new) left faults output) result.cause }
    ensures placed { IsPlaced (IsTextHeld (F.held files.old) (map (λ name. name.now) names.now)) result.cause result.place }
    ensures rises { F.faults files.old ≤ F.faults files.new }
{
    match read_texts(rt.alloc(), names, files) {
        Ok(texts) => texts_anew(
            rt,
            out,
            name,
            from,
            names.len() as u32,
            texts.as_slice(),
            choice,
            files,
            gate,
        ),
        Err(cause) => Ending::of(cause),
    }
}
