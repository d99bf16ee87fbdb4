//! From an image to bytes.

ghost use Rattle.std.specs.Prelude.{◌≡◌, ◌++◌, [], ◌∷◌, length, OnOk, IfOk};
ghost use Rattle.std.specs.List.{flat_map};
ghost use Rattle.image_form.specs.Form.{IsInForm};
ghost use Rattle.image_file.specs.Spelling.{header, number, places_said, numbers_of, place_numbers, image_bytes, AreWords, IsOfWords};

use crate::rules::{MARK, PLACE, header_length};
use image_form::{Image, ProcPlace};
use std::alloc::{AllocError, Global};

// Appends the four bytes of a number.
fn put_number(out: &mut Vec<u8>, n: u32) -> Result<(), AllocError>
    ensures { OnOk result (out.new.items ≡ out.old.items ++ number n) }
{
    out.extend_from_slice(&n.to_le_bytes())?;
    Ok(())
}

// Appends the numbers of words.
fn put_words(out: &mut Vec<u8>, code: &[u32]) -> Result<(), AllocError>
    ensures written { OnOk result (out.new.items ≡ out.old.items ++ flat_map number code.now) }
    ensures words { OnOk result (AreWords code.now) }
{
    for word in code {
        put_number(out, *word)?;
    }
    Ok(())
}

// Appends the three numbers of a place.
fn put_place(out: &mut Vec<u8>, place: ProcPlace) -> Result<(), AllocError>
    ensures written { OnOk result (out.new.items ≡ out.old.items ++ flat_map number (numbers_of place)) }
    ensures words { OnOk result (AreWords (numbers_of place)) }
{
    put_number(out, place.word)?;
    put_number(out, place.module)?;
    put_number(out, place.line)?;
    Ok(())
}

// Appends the numbers of places.
fn put_places(out: &mut Vec<u8>, places: &[ProcPlace]) -> Result<(), AllocError>
    ensures written { OnOk result (out.new.items ≡ out.old.items ++ flat_map number (place_numbers places.now)) }
    ensures words { OnOk result (AreWords (place_numbers places.now)) }
{
    for place in places {
        put_place(out, *place)?;
    }
    Ok(())
}

// Appends what an image's version says behind the frame.
fn put_count(out: &mut Vec<u8>, image: &Image) -> Result<(), AllocError>
    requires { IsInForm image.now }
    ensures { OnOk result (out.new.items ≡ out.old.items ++ places_said image.now.version image.now.places) }
{
    if image.version == 2 {
        put_number(out, image.places.as_slice().len() as u32)?;
    }
    Ok(())
}

// The header of an image in form.
fn put_header(out: &mut Vec<u8>, image: &Image) -> Result<(), AllocError>
    requires { IsInForm image.now }
    ensures { OnOk result (out.new.items ≡ out.old.items ++ header image.now) }
{
    out.extend_from_slice(&MARK)?;
    put_number(out, image.version)?;
    put_number(out, image.flags)?;
    put_number(out, image.code.as_slice().len() as u32)?;
    put_number(out, image.globals)?;
    put_number(out, image.constants.as_slice().len() as u32)?;
    put_number(out, image.frame)?;
    put_count(out, image)?;
    Ok(())
}

/// The bytes of an image in form. It takes time in proportion to their number.
pub fn write_image(alloc: Global, image: &Image) -> Result<Vec<u8>, AllocError>
    requires { IsInForm image.now }
    ensures bytes { IfOk result (λ bytes. bytes.items ≡ image_bytes image.now) }
    // So `read_image` reads them as this image.
    ensures words { IfOk result (λ bytes. IsOfWords image.now) }
{
    let code = image.code.as_slice();
    let constants = image.constants.as_slice();
    let places = image.places.as_slice();
    let length = header_length(image.version)
        + 4 * code.len()
        + constants.len()
        + PLACE * places.len();
    let mut out = Vec::with_capacity(alloc, length)?;
    put_header(&mut out, image)?;
    put_words(&mut out, code)?;
    out.extend_from_slice(constants)?;
    put_places(&mut out, places)?;
    Ok(out)
}
