//! Where bytes differ from an image's.

ghost use Rattle.std.specs.Prelude.{◌≡◌, ◌+◌, ◌*◌, ◌<◌, ◌++◌, [], ◌∷◌, Some, length, slice_get, IfSome, IfNone};
ghost use Rattle.std.specs.List.{flat_map};
ghost use Rattle.image_form.specs.Form.{IsInForm};
ghost use Rattle.image_file.specs.Spelling.{mark, number, image_bytes, in_version_one};
ghost use Rattle.image_file.specs.Differing.{DifferAt};

use crate::rules::{MARK, SHORTEST};
use image_form::Image;

// The byte at a place, where there is one.
fn got(bytes: &[u8], at: usize) -> Option<u8>
    ensures { result ≡ slice_get bytes.now at }
{
    bytes.get(at).copied()
}

// One of the bytes of some words.
fn byte_in(words: &[u32], at: usize) -> u8
    requires { at < 4 * length words.now }
    ensures { slice_get (flat_map number words.now) at ≡ Some result }
{
    words[at / 4].to_le_bytes()[at % 4]
}

// The byte at a place of an image in version 1, whose header says these numbers.
fn byte_at(header: &[u32; 6], code: &[u32], constants: &[u8], at: usize) -> Option<u8>
    ensures { result ≡ slice_get (mark ++ flat_map number header.now ++ flat_map number code.now ++ constants.now) at }
{
    if at < 8 {
        Some(MARK[at])
    } else if at < SHORTEST {
        Some(byte_in(header, at - 8))
    } else if at < SHORTEST + 4 * code.len() {
        Some(byte_in(code, at - SHORTEST))
    } else {
        got(constants, at - SHORTEST - 4 * code.len())
    }
}

/// Where bytes first differ from those of an image in version 1, whatever its own version is: the first byte that is another, or the
/// length of the shorter where it begins the longer. Nothing where they are the same. It takes no memory, and time in
/// proportion to their number.
pub fn first_difference(bytes: &[u8], image: &Image) -> Option<u32>
    requires { IsInForm image.now }
    ensures same { IfNone result (bytes.now ≡ image_bytes (in_version_one image.now)) }
    ensures differ { IfSome result (λ at. DifferAt at bytes.now (image_bytes (in_version_one image.now))) }
{
    let (code, constants) = (image.code.as_slice(), image.constants.as_slice());
    let header = [
        1,
        image.flags,
        code.len() as u32,
        image.globals,
        constants.len() as u32,
        image.frame,
    ];
    let length = SHORTEST + 4 * code.len() + constants.len();
    for at in 0..length + 1 {
        if got(bytes, at) != byte_at(&header, code, constants, at) {
            return Some(at as u32);
        }
    }
    None
}
