//! Images in form.

ghost use Rattle.std.specs.Prelude.{IfSome};
ghost use Rattle.image_form.specs.Form.{IsInForm};

use image_form::{Bytes, Image, ProcPlaces, Words};
use std::alloc::Global;

/// What an image has besides its code and its constants.
#[derive(Clone, Copy)]
pub(crate) struct Sizes {
    pub(crate) flags: u32,
    pub(crate) globals: u32,
    pub(crate) frame: u32,
}

/// The image of these parts; none where they are too large, or not of whole cells.
pub(crate) fn image_of(
    alloc: Global,
    sizes: Sizes,
    code: Vec<u32>,
    constants: Vec<u8>,
) -> Option<Image>
    ensures { IfSome result IsInForm }
{
    let Sizes {
        flags,
        globals,
        frame,
    } = sizes;
    if code.is_empty() || code.len() > 262_144 || flags > 1 {
        return None;
    }
    if globals > 8_388_608 || frame > 32_768 || constants.len() > 2_097_152 {
        return None;
    }
    if globals % 8 != 0 || frame % 8 != 0 || constants.len() % 8 != 0 {
        return None;
    }
    Some(Image {
        version: 1,
        flags,
        code: Words::new(code),
        globals,
        constants: Bytes::new(constants),
        frame,
        places: ProcPlaces::new(Vec::new(alloc)),
    })
}
