//! What is written: an image or its native program to a file, with notes to another, or lines on the output.

ghost use Rattle.std.specs.Prelude.{◌≡◌, ◌≤◌, ℕ, List, Option};
ghost use Rattle.outside.specs.Sink.{Account};
ghost use Rattle.image_form.specs.Form.{IsInForm};
ghost use Rattle.trc_answers.specs.Causes.{IsPlain, cause_of_put};
ghost use Rattle.trc_answers.specs.Verdict.{Accepted, Accepts, IsWritten, Renews, Written, WrittenElf, WrittenWith, WritesBoth};
ghost use Rattle.trc_answers.specs.Answers.{Answers, PrintAnswers, devices};

use crate::causes::{Cause, Device};
use elf_file::write_elf;
use image_file::{first_difference, write_image};
use image_form::Image;
use outside::{Files, PutFault, Sink, write_all};
use std::alloc::Global;

// Why a file wasn't written, as a cause.
fn unwritten(fault: PutFault) -> Cause
    ensures { result ≡ cause_of_put fault }
{
    match fault {
        PutFault::Failed => Cause::WriteFault {
            device: Device::Files,
        },
        PutFault::Memory => Cause::Memory,
    }
}

/// Writes bytes to the file of this name.
pub fn write_file<F: Files>(alloc: Global, name: &str, bytes: &[u8], files: &mut F) -> Cause
    ensures answers { (left : Option (List ℕ)) (faults : ℕ) (out : Account)
        → Answers (λ _. IsWritten name.now bytes.now) (devices (F.held files.old) (F.faults files.old) left faults out)
        (devices (F.held files.new) (F.faults files.new) left faults out) result }
    ensures plain { IsPlain result }
    ensures rises { F.faults files.old ≤ F.faults files.new }
{
    match files.write(alloc, name, bytes) {
        Ok(()) => Cause::Done,
        Err(fault) => unwritten(fault),
    }
}

/// Writes an image to the file of this name.
pub fn write_image_file<F: Files>(alloc: Global, name: &str, image: &Image, files: &mut F) -> Cause
    requires { IsInForm image.now }
    ensures answers { (left : Option (List ℕ)) (faults : ℕ) (out : Account)
        → Answers (λ _. Written name.now image.now) (devices (F.held files.old) (F.faults files.old) left faults out)
        (devices (F.held files.new) (F.faults files.new) left faults out) result }
    ensures plain { IsPlain result }
    ensures rises { F.faults files.old ≤ F.faults files.new }
{
    match write_image(alloc, image) {
        Ok(bytes) => write_file(alloc, name, bytes.as_slice(), files),
        Err(_) => Cause::Memory,
    }
}

/// Writes the native program of an image to the file of this name.
pub fn write_elf_file<F: Files>(alloc: Global, name: &str, image: &Image, files: &mut F) -> Cause
    requires { IsInForm image.now }
    ensures answers { (left : Option (List ℕ)) (faults : ℕ) (out : Account)
        → Answers (λ _. WrittenElf name.now image.now) (devices (F.held files.old) (F.faults files.old) left faults out)
        (devices (F.held files.new) (F.faults files.new) left faults out) result }
    ensures plain { IsPlain result }
    ensures rises { F.faults files.old ≤ F.faults files.new }
{
    match write_elf(alloc, image) {
        Ok(bytes) => write_file(alloc, name, bytes.as_slice(), files),
        Err(_) => Cause::Memory,
    }
}

/// Writes an image to the file of this name where these bytes, those of another file, are the image's in version 1.
pub fn renew_image_file<F: Files>(
    alloc: Global,
    name: &str,
    bytes: &[u8],
    image: &Image,
    files: &mut F,
) -> Cause
    requires { IsInForm image.now }
    ensures answers { (left : Option (List ℕ)) (faults : ℕ) (out : Account)
        → Answers (λ _. Renews bytes.now image.now (Written name.now image.now)) (devices (F.held files.old) (F.faults files.old) left faults out)
        (devices (F.held files.new) (F.faults files.new) left faults out) result }
    ensures plain { IsPlain result }
    ensures rises { F.faults files.old ≤ F.faults files.new }
{
    match first_difference(bytes, image) {
        Some(at) => Cause::OtherImage { at },
        None => write_image_file(alloc, name, image, files),
    }
}

// Writes bytes to a file, and then others to another.
fn write_both<F: Files>(
    alloc: Global,
    name: &str,
    bytes: &[u8],
    other: &str,
    others: &[u8],
    files: &mut F,
) -> Cause
    ensures answers { (left : Option (List ℕ)) (faults : ℕ) (out : Account)
        → Answers (λ _ verdict. verdict ≡ WritesBoth name.now bytes.now other.now others.now)
        (devices (F.held files.old) (F.faults files.old) left faults out)
        (devices (F.held files.new) (F.faults files.new) left faults out) result }
    ensures plain { IsPlain result }
    ensures rises { F.faults files.old ≤ F.faults files.new }
{
    if let Err(fault) = files.write(alloc, name, bytes) {
        return unwritten(fault);
    }
    match files.write(alloc, other, others) {
        Ok(()) => Cause::Done,
        Err(fault) => unwritten(fault),
    }
}

/// Writes an image to the file of this name, and then these bytes to another.
pub fn write_image_with<F: Files>(
    alloc: Global,
    name: &str,
    image: &Image,
    other: &str,
    others: &[u8],
    files: &mut F,
) -> Cause
    requires { IsInForm image.now }
    ensures answers { (left : Option (List ℕ)) (faults : ℕ) (out : Account)
        → Answers (λ _. WrittenWith name.now image.now other.now others.now)
        (devices (F.held files.old) (F.faults files.old) left faults out)
        (devices (F.held files.new) (F.faults files.new) left faults out) result }
    ensures plain { IsPlain result }
    ensures rises { F.faults files.old ≤ F.faults files.new }
{
    match write_image(alloc, image) {
        Ok(bytes) => write_both(alloc, name, bytes.as_slice(), other, others, files),
        Err(_) => Cause::Memory,
    }
}

/// The same where these bytes, those of another file, are the image's in version 1.
pub fn renew_image_with<F: Files>(
    alloc: Global,
    name: &str,
    bytes: &[u8],
    image: &Image,
    other: &str,
    others: &[u8],
    files: &mut F,
) -> Cause
    requires { IsInForm image.now }
    ensures answers { (left : Option (List ℕ)) (faults : ℕ) (out : Account)
        → Answers (λ _. Renews bytes.now image.now (WrittenWith name.now image.now other.now others.now))
        (devices (F.held files.old) (F.faults files.old) left faults out)
        (devices (F.held files.new) (F.faults files.new) left faults out) result }
    ensures plain { IsPlain result }
    ensures rises { F.faults files.old ≤ F.faults files.new }
{
    match first_difference(bytes, image) {
        Some(at) => Cause::OtherImage { at },
        None => write_image_with(alloc, name, image, other, others, files),
    }
}

// Writes bytes to a file, and then prints that what they were made of is sound.
fn accept<F: Files, O: Sink>(
    alloc: Global,
    name: &str,
    bytes: &[u8],
    files: &mut F,
    out: &mut O,
) -> Cause
    ensures answers { (left : Option (List ℕ)) (faults : ℕ)
        → Answers (λ _ verdict. verdict ≡ Accepts name.now bytes.now)
        (devices (F.held files.old) (F.faults files.old) left faults (O.account out.old))
        (devices (F.held files.new) (F.faults files.new) left faults (O.account out.new)) result }
    ensures plain { IsPlain result }
    ensures files_rise { F.faults files.old ≤ F.faults files.new }
    ensures out_rises { (O.account out.old).faults ≤ (O.account out.new).faults }
{
    match files.write(alloc, name, bytes) {
        Ok(()) => print(out, b"sound\n"),
        Err(fault) => unwritten(fault),
    }
}

/// Writes an image to the file of this name, and then prints that the results that it was made of are sound.
pub fn accept_image<F: Files, O: Sink>(
    alloc: Global,
    name: &str,
    image: &Image,
    files: &mut F,
    out: &mut O,
) -> Cause
    requires { IsInForm image.now }
    ensures answers { (left : Option (List ℕ)) (faults : ℕ)
        → Answers (λ _. Accepted name.now image.now)
        (devices (F.held files.old) (F.faults files.old) left faults (O.account out.old))
        (devices (F.held files.new) (F.faults files.new) left faults (O.account out.new)) result }
    ensures plain { IsPlain result }
    ensures files_rise { F.faults files.old ≤ F.faults files.new }
    ensures out_rises { (O.account out.old).faults ≤ (O.account out.new).faults }
{
    match write_image(alloc, image) {
        Ok(bytes) => accept(alloc, name, bytes.as_slice(), files, out),
        Err(_) => Cause::Memory,
    }
}

/// Writes lines on the output.
pub fn print<O: Sink>(out: &mut O, lines: &[u8]) -> Cause
    ensures answers { PrintAnswers lines.now (O.account out.old) (O.account out.new) result }
    ensures plain { IsPlain result }
    ensures rises { (O.account out.old).faults ≤ (O.account out.new).faults }
{
    match write_all(out, lines) {
        Ok(()) => Cause::Done,
        Err(_) => Cause::WriteFault {
            device: Device::Output,
        },
    }
}
