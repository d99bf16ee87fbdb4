//! From bytes to an image.

ghost use Rattle.std.specs.Prelude.{◌≡◌, ◌+◌, ◌*◌, ◌≤◌, length, take, drop, IfOk};
ghost use Rattle.std.specs.Result.{ForErr, IfErr};
ghost use Rattle.std.specs.List.{flat_map};
ghost use Rattle.image_form.specs.declared.image.Image.{Image};
ghost use Rattle.image_form.specs.Form.{IsInForm};
ghost use Rattle.image_file.specs.declared.fault.ImageFault.TheVariants.{Memory};
ghost use Rattle.image_file.specs.Spelling.{number, numbers_of, place_numbers, image_bytes, AreWords, IsOfWords};
ghost use Rattle.image_file.specs.Rules.{first_fault, Refuses, Gives};

use crate::fault::ImageFault;
use crate::rules::{PLACE, header_length, header_of, number_at};
use image_form::{Bytes, Image, ProcPlace, ProcPlaces, Words};
use std::alloc::Global;

// So many code words from a place on.
fn code_of(alloc: Global, bytes: &[u8], from: usize, count: usize) -> Result<Vec<u32>, ImageFault>
    requires { from + 4 * count ≤ length bytes.now }
    ensures spelled { IfOk result (λ code. flat_map number code.items ≡ take (4 * count) (drop from bytes.now)) }
    ensures count { IfOk result (λ code. length code.items ≡ count) }
    ensures below { IfOk result (λ code. AreWords code.items) }
    ensures only { ForErr result (λ e. e ≡ Memory) }
{
    let mut code = Vec::with_capacity(alloc, count)?;
    for i in 0..count {
        code.push(number_at(bytes, from + 4 * i))?;
    }
    Ok(code)
}

// So many places of procedures from a place on.
fn places_of(
    alloc: Global,
    bytes: &[u8],
    from: usize,
    count: usize,
) -> Result<Vec<ProcPlace>, ImageFault>
    requires { from + 12 * count ≤ length bytes.now }
    ensures spelled { IfOk result (λ places. flat_map number (place_numbers places.items) ≡ take (12 * count) (drop from bytes.now)) }
    ensures count { IfOk result (λ places. length places.items ≡ count) }
    ensures below { IfOk result (λ places. AreWords (place_numbers places.items)) }
    ensures only { ForErr result (λ e. e ≡ Memory) }
{
    let mut places = Vec::with_capacity(alloc, count)?;
    for i in 0..count {
        places.push(place_at(bytes, from + PLACE * i))?;
    }
    Ok(places)
}

// The place of a procedure that stands at a place.
fn place_at(bytes: &[u8], at: usize) -> ProcPlace
    requires { at + 12 ≤ length bytes.now }
    ensures spelled { flat_map number (numbers_of result) ≡ take 12 (drop at bytes.now) }
    ensures below { AreWords (numbers_of result) }
{
    ProcPlace {
        word: number_at(bytes, at),
        module: number_at(bytes, at + 4),
        line: number_at(bytes, at + 8),
    }
}

// The image with these bytes, or the first rule that they break.
fn image_of(alloc: Global, bytes: &[u8]) -> Result<Image, ImageFault>
    ensures in_form { IfOk result (λ image. IsInForm image) }
    ensures words { IfOk result (λ image. IsOfWords image) }
    ensures read { IfOk result (λ image. bytes.now ≡ image_bytes image) }
    ensures fault { IfErr result (λ e. Refuses e (first_fault bytes.now)) }
{
    let header = header_of(bytes)?;
    let first_place = header.first_place();
    let code = code_of(
        alloc,
        bytes,
        header_length(header.version),
        header.words as usize,
    )?;
    let constants = Vec::from_slice(alloc, &bytes[header.first_constant()..first_place])?;
    let places = places_of(alloc, bytes, first_place, header.places as usize)?;
    Ok(Image {
        version: header.version,
        flags: header.flags,
        code: Words::new(code),
        globals: header.globals,
        constants: Bytes::new(constants),
        frame: header.frame,
        places: ProcPlaces::new(places),
    })
}

/// The image with these bytes. It takes time in proportion to their number.
pub fn read_image(alloc: Global, bytes: &[u8]) -> Result<Image, ImageFault>
    // What is read is an image in form, with just these bytes.
    ensures in_form { IfOk result (λ image. IsInForm image) }
    ensures words { IfOk result (λ image. IsOfWords image) }
    ensures read { IfOk result (λ image. bytes.now ≡ image_bytes image) }
    // The bytes of an image in form are read as that image.
    ensures only { (image : Image) → IsInForm image → IsOfWords image → bytes.now ≡ image_bytes image → Gives image result }
    // A fault is the first rule that is broken.
    ensures fault { IfErr result (λ e. Refuses e (first_fault bytes.now)) }
{
    image_of(alloc, bytes)
}
