//! The files of modules and of images are read.

ghost use Rattle.std.specs.Prelude.{◌≡◌, ◌≤◌, Some, length, map, IfOk, IfErr};
ghost use Rattle.trc_answers.specs.Causes.{IsPlain};
ghost use Rattle.trc_answers.specs.Reading.{AreTextsOf, IsImageRead, IsImageUnread, IsRead, IsUnread, IsUnreadAt};

use crate::causes::{Cause, Device};
use items::Items;
use outside::{Files, GetFault};
use std::alloc::Global;

/// The most bytes that a module's text may have.
const MOST_BYTES: usize = 1_048_576;

/// The most modules that a program may have.
const MOST_MODULES: usize = 64;

/// The most bytes that a file of an image is read with.
const MOST_IMAGE: u32 = 16_777_216;

// Reads the file of this name, the one of this number.
fn read_text<F: Files>(
    alloc: Global,
    number: u32,
    name: &str,
    files: &mut F,
) -> Result<Items<u8>, Cause>
    ensures stays { F.held files.new ≡ F.held files.old }
    ensures rises { F.faults files.old ≤ F.faults files.new }
    ensures text { IfOk result (λ text. IsRead (F.held files.old) name.now text) }
    ensures fault { IfErr result (λ cause. IsUnreadAt (F.held files.old) number name.now (F.faults files.old) (F.faults files.new) cause) }
    ensures plain { IfErr result IsPlain }
{
    match files.read(alloc, name, MOST_BYTES) {
        Ok(text) => Ok(Items::from_vec(text)),
        Err(GetFault::NoSuchFile) => Err(Cause::NoSuchFile { word: number }),
        Err(GetFault::TooLong) => Err(Cause::Limit {
            number: 55,
            index: number,
        }),
        Err(GetFault::Failed) => Err(Cause::ReadFault {
            device: Device::Files,
        }),
        Err(GetFault::Memory) => Err(Cause::Memory),
    }
}

/// Reads the files of these names, in their order: the texts of at most 64 modules, each of at most 1,048,576 bytes.
pub fn read_texts<F: Files>(
    alloc: Global,
    names: &[&str],
    files: &mut F,
) -> Result<Vec<Items<u8>>, Cause>
    ensures stays { F.held files.new ≡ F.held files.old }
    ensures rises { F.faults files.old ≤ F.faults files.new }
    ensures texts { IfOk result (λ texts. AreTextsOf (F.held files.old) (map (λ name. name.now) names.now) texts.items) }
    ensures fault { IfErr result (λ cause. IsUnread (F.held files.old) (map (λ name. name.now) names.now) (F.faults files.old) (F.faults files.new) cause) }
    ensures plain { IfErr result IsPlain }
{
    if names.len() > MOST_MODULES {
        return Err(Cause::Limit {
            number: 56,
            index: 0,
        });
    }
    let mut texts = Vec::new(alloc);
    for place in 0..names.len() {
        let name = names[place];
        let text = read_text(alloc, place as u32, name, files)?;
        match texts.push(text) {
            Ok(()) => {}
            Err(_) => return Err(Cause::Memory),
        }
    }
    Ok(texts)
}

/// Reads the file of an image, the one of this number among those that the command reads: at most 16,777,216 bytes.
pub fn read_image_file<F: Files>(
    alloc: Global,
    number: u32,
    name: &str,
    files: &mut F,
) -> Result<Vec<u8>, Cause>
    ensures stays { F.held files.new ≡ F.held files.old }
    ensures rises { F.faults files.old ≤ F.faults files.new }
    ensures bytes { IfOk result (λ bytes. IsImageRead (F.held files.old) name.now bytes.items) }
    ensures fault { IfErr result (λ cause. IsImageUnread (F.held files.old) number name.now (F.faults files.old) (F.faults files.new) cause) }
    ensures plain { IfErr result IsPlain }
{
    match files.read(alloc, name, MOST_IMAGE as usize) {
        Ok(bytes) => Ok(bytes),
        Err(GetFault::NoSuchFile) => Err(Cause::NoSuchFile { word: number }),
        Err(GetFault::TooLong) => Err(Cause::NotImage {
            number: 65,
            at: MOST_IMAGE,
        }),
        Err(GetFault::Failed) => Err(Cause::ReadFault {
            device: Device::Files,
        }),
        Err(GetFault::Memory) => Err(Cause::Memory),
    }
}
