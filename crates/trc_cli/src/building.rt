//! Modules are compiled, and their image, or its native program, is written to a file.

ghost use Rattle.std.specs.Prelude.{◌≤◌, ℕ, List, Option, Some, None, length, map};
ghost use Rattle.object_commands.specs.words.alloc_choice.Choice.{IsFitChoice};
ghost use Rattle.outside.specs.Sink.{Account};
ghost use Rattle.word_requests.specs.Asked.{Build};
ghost use Rattle.option_values.specs.Values.{text};
ghost use Rattle.trc_answers.specs.Answers.{Answers, devices};
ghost use Rattle.trc_answers.specs.Causes.{IsPlaced};
ghost use Rattle.trc_answers.specs.Reading.{FilesComeTo};
ghost use Rattle.trc_answers.specs.Verdict.{Renews, Written, WrittenElf, world};
ghost use Rattle.trc_cli.specs.Commands.{AnewComesTo, IsTextHeld, IsTextIn, RequestComesTo, TextsComeTo};

use items::Items;
use object_commands::image_words::Choice;
use object_commands::{Scaffolds, build_anew_with_notes, build_with_notes, compile, image_alone};
use outside::{Files, Gate};
use std::alloc::AllocGlobal;
use std::sync::Wait;
use std::thread::Threads;
use trc_answers::{
    Ending, read_image_file, read_texts, renew_image_file, write_elf_file, write_image_file,
};

// Compiles texts, and writes their image to the file of this name.
fn build_texts<R: Threads + Wait + AllocGlobal + Sync, F: Files, G: Gate>(
    rt: &R,
    name: &str,
    texts: &[Items<u8>],
    choice: &Choice,
    files: &mut F,
    gate: &G,
    scaffolds: Scaffolds,
) -> Ending
    requires choice { IsFitChoice choice.now }
    requires few { length texts.now ≤ 64 }
    ensures answers { (left : Option (List ℕ)) (faults : ℕ) (out : Account)
        → Answers (λ _. TextsComeTo choice.now (λ made. Written name.now made.image) texts.now)
        (devices (F.held files.old) (F.faults files.old) left faults out)
        (devices (F.held files.new) (F.faults files.new) left faults out) result.cause }
    ensures placed { IsPlaced (IsTextIn texts.now) result.cause result.place }
    ensures rises { F.faults files.old ≤ F.faults files.new }
{
    match compile(rt, rt.alloc(), choice, texts, gate) {
        Ok(made) => {
            let image = image_alone(made, scaffolds);
            Ending::of(write_image_file(rt.alloc(), name, &image, files))
        }
        Err(ending) => ending,
    }
}

// Compiles the files of these names, and writes their image to the file `out`, which is written last.
fn build<R: Threads + Wait + AllocGlobal + Sync, F: Files, G: Gate>(
    rt: &R,
    out: &str,
    names: &[&str],
    choice: &Choice,
    files: &mut F,
    gate: &G,
    scaffolds: Scaffolds,
) -> Ending
    requires { IsFitChoice choice.now }
    ensures answers { (left : Option (List ℕ)) (faults : ℕ) (output : Account)
        → Answers (λ _. FilesComeTo (F.held files.old) (map (λ name. name.now) names.now)
        (TextsComeTo choice.now (λ made. Written out.now made.image)))
        (devices (F.held files.old) (F.faults files.old) left faults output)
        (devices (F.held files.new) (F.faults files.new) left faults output) result.cause }
    ensures placed { IsPlaced (IsTextHeld (F.held files.old) (map (λ name. name.now) names.now)) result.cause result.place }
    ensures rises { F.faults files.old ≤ F.faults files.new }
{
    match read_texts(rt.alloc(), names, files) {
        Ok(texts) => build_texts(rt, out, texts.as_slice(), choice, files, gate, scaffolds),
        Err(cause) => Ending::of(cause),
    }
}

// Compiles texts, and writes their image to the file of this name where these bytes are the image's in version 1.
fn renew_texts<R: Threads + Wait + AllocGlobal + Sync, F: Files, G: Gate>(
    rt: &R,
    name: &str,
    bytes: &[u8],
    texts: &[Items<u8>],
    choice: &Choice,
    files: &mut F,
    gate: &G,
    scaffolds: Scaffolds,
) -> Ending
    requires choice { IsFitChoice choice.now }
    requires few { length texts.now ≤ 64 }
    ensures answers { (left : Option (List ℕ)) (faults : ℕ) (out : Account)
        → Answers (λ _. TextsComeTo choice.now (λ made. Renews bytes.now made.image (Written name.now made.image)) texts.now)
        (devices (F.held files.old) (F.faults files.old) left faults out)
        (devices (F.held files.new) (F.faults files.new) left faults out) result.cause }
    ensures placed { IsPlaced (IsTextIn texts.now) result.cause result.place }
    ensures rises { F.faults files.old ≤ F.faults files.new }
{
    match compile(rt, rt.alloc(), choice, texts, gate) {
        Ok(made) => {
            let image = image_alone(made, scaffolds);
            Ending::of(renew_image_file(rt.alloc(), name, bytes, &image, files))
        }
        Err(ending) => ending,
    }
}

// Reads the file of an image, the one of this number, and builds the image of texts anew from it.
fn build_texts_anew<R: Threads + Wait + AllocGlobal + Sync, F: Files, G: Gate>(
    rt: &R,
    name: &str,
    from: &str,
    number: u32,
    texts: &[Items<u8>],
    choice: &Choice,
    files: &mut F,
    gate: &G,
    scaffolds: Scaffolds,
) -> Ending
    requires choice { IsFitChoice choice.now }
    requires few { length texts.now ≤ 64 }
    ensures answers { (left : Option (List ℕ)) (faults : ℕ) (out : Account)
        → Answers (λ _. AnewComesTo (F.held files.old) choice.now name.now from.now number texts.now)
        (devices (F.held files.old) (F.faults files.old) left faults out)
        (devices (F.held files.new) (F.faults files.new) left faults out) result.cause }
    ensures placed { IsPlaced (IsTextIn texts.now) result.cause result.place }
    ensures rises { F.faults files.old ≤ F.faults files.new }
{
    match read_image_file(rt.alloc(), number, from, files) {
        Ok(bytes) => renew_texts(
            rt,
            name,
            bytes.as_slice(),
            texts,
            choice,
            files,
            gate,
            scaffolds,
        ),
        Err(cause) => Ending::of(cause),
    }
}

// Compiles the files of these names, and writes their image to the file `out` where the file `from` holds that image in
// version 1. That file is read behind the others, before they are compiled, and `out` is written last, so the two may be one.
fn build_anew<R: Threads + Wait + AllocGlobal + Sync, F: Files, G: Gate>(
    rt: &R,
    out: &str,
    names: &[&str],
    from: &str,
    choice: &Choice,
    files: &mut F,
    gate: &G,
    scaffolds: Scaffolds,
) -> Ending
    requires { IsFitChoice choice.now }
    ensures answers { (left : Option (List ℕ)) (faults : ℕ) (output : Account)
        → Answers (λ _. FilesComeTo (F.held files.old) (map (λ name. name.now) names.now)
        (AnewComesTo (F.held files.old) choice.now out.now from.now (length names.now)))
        (devices (F.held files.old) (F.faults files.old) left faults output)
        (devices (F.held files.new) (F.faults files.new) left faults output) result.cause }
    ensures placed { IsPlaced (IsTextHeld (F.held files.old) (map (λ name. name.now) names.now)) result.cause result.place }
    ensures rises { F.faults files.old ≤ F.faults files.new }
{
    match read_texts(rt.alloc(), names, files) {
        Ok(texts) => build_texts_anew(
            rt,
            out,
            from,
            names.len() as u32,
            texts.as_slice(),
            choice,
            files,
            gate,
            scaffolds,
        ),
        Err(cause) => Ending::of(cause),
    }
}

// Compiles the files of these names, and writes their image to the file `out`; where an older file is named, only where that holds
// the image in version 1.
fn build_from<R: Threads + Wait + AllocGlobal + Sync, F: Files, G: Gate>(
    rt: &R,
    out: &str,
    names: &[&str],
    from: Option<&str>,
    choice: &Choice,
    files: &mut F,
    gate: &G,
    scaffolds: Scaffolds,
) -> Ending
    requires { IsFitChoice choice.now }
    ensures answers { (left : Option (List ℕ)) (faults : ℕ) (output : Account)
        → Answers (λ l. RequestComesTo (world (F.held files.old) l)
        (Build out.now (map (λ name. name.now) names.now) choice.now (text from.entry) None))
        (devices (F.held files.old) (F.faults files.old) left faults output)
        (devices (F.held files.new) (F.faults files.new) left faults output) result.cause }
    ensures placed { IsPlaced (IsTextHeld (F.held files.old) (map (λ name. name.now) names.now)) result.cause result.place }
    ensures rises { F.faults files.old ≤ F.faults files.new }
{
    match from {
        Some(from) => build_anew(rt, out, names, from, choice, files, gate, scaffolds),
        None => build(rt, out, names, choice, files, gate, scaffolds),
    }
}

// The same, with the notes of the results behind the image, which are written to the file `notes` behind it.
fn build_noted<R: Threads + Wait + AllocGlobal + Sync, F: Files, G: Gate>(
    rt: &R,
    out: &str,
    notes: &str,
    names: &[&str],
    from: Option<&str>,
    choice: &Choice,
    files: &mut F,
    gate: &G,
) -> Ending
    requires { IsFitChoice choice.now }
    ensures answers { (left : Option (List ℕ)) (faults : ℕ) (output : Account)
        → Answers (λ l. RequestComesTo (world (F.held files.old) l)
        (Build out.now (map (λ name. name.now) names.now) choice.now (text from.entry) (Some notes.now)))
        (devices (F.held files.old) (F.faults files.old) left faults output)
        (devices (F.held files.new) (F.faults files.new) left faults output) result.cause }
    ensures placed { IsPlaced (IsTextHeld (F.held files.old) (map (λ name. name.now) names.now)) result.cause result.place }
    ensures rises { F.faults files.old ≤ F.faults files.new }
{
    match from {
        Some(from) => { build_anew_with_notes(rt, out, notes, names, from, choice, files, gate) }
        None => build_with_notes(rt, out, notes, names, choice, files, gate),
    }
}

/// Compiles the files of these names, and writes their image to the file `out`; where an older file is named, only where that holds
/// the image in version 1; and where a file for notes is named, the notes of the results behind the image to that.
pub(crate) fn build_asked<R: Threads + Wait + AllocGlobal + Sync, F: Files, G: Gate>(
    rt: &R,
    out: &str,
    names: &[&str],
    from: Option<&str>,
    notes: Option<&str>,
    choice: &Choice,
    files: &mut F,
    gate: &G,
    scaffolds: Scaffolds,
) -> Ending
    requires { IsFitChoice choice.now }
    ensures answers { (left : Option (List ℕ)) (faults : ℕ) (output : Account)
        → Answers (λ l. RequestComesTo (world (F.held files.old) l)
        (Build out.now (map (λ name. name.now) names.now) choice.now (text from.entry) (text notes.entry)))
        (devices (F.held files.old) (F.faults files.old) left faults output)
        (devices (F.held files.new) (F.faults files.new) left faults output) result.cause }
    ensures placed { IsPlaced (IsTextHeld (F.held files.old) (map (λ name. name.now) names.now)) result.cause result.place }
    ensures rises { F.faults files.old ≤ F.faults files.new }
{
    match notes {
        Some(notes) => build_noted(rt, out, notes, names, from, choice, files, gate),
        None => build_from(rt, out, names, from, choice, files, gate, scaffolds),
    }
}

// Compiles texts, and writes the native program of their image to the file of this name.
fn elf_texts<R: Threads + Wait + AllocGlobal + Sync, F: Files, G: Gate>(
    rt: &R,
    name: &str,
    texts: &[Items<u8>],
    choice: &Choice,
    files: &mut F,
    gate: &G,
    scaffolds: Scaffolds,
) -> Ending
    requires choice { IsFitChoice choice.now }
    requires few { length texts.now ≤ 64 }
    ensures answers { (left : Option (List ℕ)) (faults : ℕ) (out : Account)
        → Answers (λ _. TextsComeTo choice.now (λ made. WrittenElf name.now made.image) texts.now)
        (devices (F.held files.old) (F.faults files.old) left faults out)
        (devices (F.held files.new) (F.faults files.new) left faults out) result.cause }
    ensures placed { IsPlaced (IsTextIn texts.now) result.cause result.place }
    ensures rises { F.faults files.old ≤ F.faults files.new }
{
    match compile(rt, rt.alloc(), choice, texts, gate) {
        Ok(made) => {
            let image = image_alone(made, scaffolds);
            Ending::of(write_elf_file(rt.alloc(), name, &image, files))
        }
        Err(ending) => ending,
    }
}

/// Compiles the files of these names, and writes the native program of their image to the file `out`, which is written last.
pub(crate) fn elf<R: Threads + Wait + AllocGlobal + Sync, F: Files, G: Gate>(
    rt: &R,
    out: &str,
    names: &[&str],
    choice: &Choice,
    files: &mut F,
    gate: &G,
    scaffolds: Scaffolds,
) -> Ending
    requires { IsFitChoice choice.now }
    ensures answers { (left : Option (List ℕ)) (faults : ℕ) (output : Account)
        → Answers (λ _. FilesComeTo (F.held files.old) (map (λ name. name.now) names.now)
        (TextsComeTo choice.now (λ made. WrittenElf out.now made.image)))
        (devices (F.held files.old) (F.faults files.old) left faults output)
        (devices (F.held files.new) (F.faults files.new) left faults output) result.cause }
    ensures placed { IsPlaced (IsTextHeld (F.held files.old) (map (λ name. name.now) names.now)) result.cause result.place }
    ensures rises { F.faults files.old ≤ F.faults files.new }
{
    match read_texts(rt.alloc(), names, files) {
        Ok(texts) => elf_texts(rt, out, texts.as_slice(), choice, files, gate, scaffolds),
        Err(cause) => Ending::of(cause),
    }
}
