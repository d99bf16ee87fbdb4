//! The files of objects are read, one at a time.

ghost use Rattle.std.specs.Prelude.{◌≡◌, ◌≤◌, ◌∷◌, ◌++◌, [], ℕ, List, length, map, IfOk, IfErr};
ghost use Rattle.object_form.specs.Objects.{most_bytes};
ghost use Rattle.trc_answers.specs.Causes.{IsPlain};
ghost use Rattle.trc_answers.specs.declared.causes.Cause.TheVariants.{Memory};
ghost use Rattle.object_commands.specs.Links.{AreObjectsIn};
ghost use Rattle.object_commands.specs.Reading.{AreContents, AreContentsHeld, AreUnread, IsContent, IsContentHeld, IsUnreadAt};

use object_form::{Object, ObjectFault, read_object};
use outside::{Files, GetFault};
use std::alloc::Global;
use trc_answers::{Cause, Device};

/// The most bytes that an object has.
const MOST_OBJECT: u32 = 67_108_864;

/// What bytes are: an object, or none, by the number of the first rule that they break, 80 to 84, and its place.
#[derive(Drop)]
pub(crate) enum Content {
    Object(Object),
    Broken { number: u8, at: u32 },
}

/// What the bytes of several files are: objects, or not all of them, by the first that is none.
#[derive(Drop)]
pub(crate) enum Contents {
    Objects(Vec<Object>),
    NotObject { word: u32, number: u8, at: u32 },
}

// What bytes are.
fn content_of(alloc: Global, bytes: &[u8]) -> Result<Content, Cause>
    requires { length bytes.now ≤ most_bytes }
    ensures content { IfOk result (IsContent bytes.now) }
    ensures fault { IfErr result (λ cause. cause ≡ Memory) }
{
    match read_object(alloc, bytes) {
        Ok(object) => Ok(Content::Object(object)),
        Err(ObjectFault::Fault { number, at }) => Ok(Content::Broken { number, at }),
        Err(_) => Err(Cause::Memory),
    }
}

// Reads the file of this name, the one of this number. Its bytes are let go.
fn read_content<F: Files>(
    alloc: Global,
    number: u32,
    name: &str,
    files: &mut F,
) -> Result<Content, Cause>
    ensures stays { F.held files.new ≡ F.held files.old }
    ensures rises { F.faults files.old ≤ F.faults files.new }
    ensures content { IfOk result (IsContentHeld (F.held files.old) name.now) }
    ensures fault { IfErr result (λ cause. IsUnreadAt (F.held files.old) number name.now (F.faults files.old) (F.faults files.new) cause) }
    ensures plain { IfErr result IsPlain }
{
    match files.read(alloc, name, MOST_OBJECT as usize) {
        Ok(bytes) => content_of(alloc, bytes.as_slice()),
        Err(GetFault::TooLong) => Ok(Content::Broken {
            number: 84,
            at: MOST_OBJECT,
        }),
        Err(GetFault::NoSuchFile) => Err(Cause::NoSuchFile { word: number }),
        Err(GetFault::Failed) => Err(Cause::ReadFault {
            device: Device::Files,
        }),
        Err(GetFault::Memory) => Err(Cause::Memory),
    }
}

// What the bytes of files are that are all objects, and those of one more, which has this number.
fn one_more(mut objects: Vec<Object>, word: u32, content: Content) -> Result<Contents, Cause>
    ensures is { (contents : List (List ℕ)) (bytes : List ℕ) → length contents ≡ word → AreObjectsIn contents objects.items → IsContent bytes content
        → IfOk result (AreContents (contents ++ bytes ∷ [])) }
    ensures fault { IfErr result (λ cause. cause ≡ Memory) }
{
    match content {
        Content::Object(object) => match objects.push(object) {
            Ok(()) => Ok(Contents::Objects(objects)),
            Err(_) => Err(Cause::Memory),
        },
        Content::Broken { number, at } => Ok(Contents::NotObject { word, number, at }),
    }
}

// What the bytes of files are, with those of one more, which has this number.
fn with_content(read: Contents, word: u32, content: Content) -> Result<Contents, Cause>
    ensures is { (contents : List (List ℕ)) (bytes : List ℕ) → length contents ≡ word → AreContents contents read → IsContent bytes content
        → IfOk result (AreContents (contents ++ bytes ∷ [])) }
    ensures fault { IfErr result (λ cause. cause ≡ Memory) }
{
    match read {
        Contents::Objects(objects) => one_more(objects, word, content),
        Contents::NotObject { word, number, at } => Ok(Contents::NotObject { word, number, at }),
    }
}

/// Reads the files of these names, in their order, each of at most 67,108,864 bytes. A file whose bytes are no object ends the reading
/// of none: the files behind it have to be there too.
pub(crate) fn read_contents<F: Files>(
    alloc: Global,
    names: &[&str],
    files: &mut F,
) -> Result<Contents, Cause>
    requires { length names.now ≤ 64 }
    ensures stays { F.held files.new ≡ F.held files.old }
    ensures rises { F.faults files.old ≤ F.faults files.new }
    ensures contents { IfOk result (AreContentsHeld (F.held files.old) (map (λ name. name.now) names.now)) }
    ensures fault { IfErr result (λ cause. AreUnread (F.held files.old) (map (λ name. name.now) names.now) (F.faults files.old) (F.faults files.new) cause) }
    ensures plain { IfErr result IsPlain }
{
    let mut read = Contents::Objects(Vec::new(alloc));
    for place in 0..names.len() {
        let content = read_content(alloc, place as u32, names[place], files)?;
        read = with_content(read, place as u32, content)?;
    }
    Ok(read)
}
