//! Small files of both versions byte by byte, what their changes are refused for, where bytes differ, and the greatest images.
//! What is wanted comes from an independent program.

ghost use Rattle.std.specs.Prelude.{◌≤◌, length};

use image_file::{ImageFault, first_difference, read_image, write_image};
use image_form::Image;
use std::alloc::{AllocError, Global};
use std::test::Fail;

/// A file of version 1: two code words and eight bytes of constants.
const FIRST: [u8; 48] = [
    0x54, 0x52, 0x43, 0x36, 0x34, 0x49, 0x4d, 0x47, 1, 0, 0, 0, 1, 0, 0, 0, 2, 0, 0, 0, 8, 0, 0, 0,
    8, 0, 0, 0, 16, 0, 0, 0, 0x28, 0x00, 0x00, 0x94, 0x01, 0x00, 0x00, 0xd4, 1, 2, 3, 4, 5, 6, 7,
    8,
];

/// The same in version 2, with the places of two procedures.
const SECOND: [u8; 76] = [
    0x54, 0x52, 0x43, 0x36, 0x34, 0x49, 0x4d, 0x47, 2, 0, 0, 0, 1, 0, 0, 0, 2, 0, 0, 0, 8, 0, 0, 0,
    8, 0, 0, 0, 16, 0, 0, 0, 2, 0, 0, 0, 0x28, 0x00, 0x00, 0x94, 0x01, 0x00, 0x00, 0xd4, 1, 2, 3,
    4, 5, 6, 7, 8, 0, 0, 0, 0, 0, 0, 0, 0, 1, 0, 0, 0, 1, 0, 0, 0, 3, 0, 0, 0, 0x34, 0x12, 0, 0,
];

/// One byte put in the place of another in the file of version 1, and the rule that it then breaks, with the place.
const FIRST_CHANGES: [(usize, u8, u8, u32); 15] = [
    (0, 0, 61, 0),
    (7, 0, 61, 0),
    (8, 0, 62, 8),
    (8, 3, 62, 8),
    (12, 2, 63, 12),
    (16, 0, 63, 16),
    (20, 9, 63, 20),
    (24, 9, 63, 24),
    (28, 9, 63, 28),
    (16, 3, 60, 48),
    (16, 1, 64, 44),
    (18, 4, 63, 16),
    (22, 129, 63, 20),
    (26, 33, 63, 24),
    (29, 129, 63, 28),
];

/// The same of the file of version 2.
const SECOND_CHANGES: [(usize, u8, u8, u32); 28] = [
    (0, 0, 61, 0),
    (7, 0, 61, 0),
    (8, 0, 62, 8),
    (8, 3, 62, 8),
    (8, 1, 64, 48),
    (12, 2, 63, 12),
    (16, 0, 63, 16),
    (16, 1, 64, 72),
    (16, 3, 60, 76),
    (18, 4, 63, 16),
    (20, 9, 63, 20),
    (22, 129, 63, 20),
    (24, 9, 63, 24),
    (26, 33, 63, 24),
    (28, 9, 63, 28),
    (30, 1, 63, 28),
    (32, 0, 63, 32),
    (32, 1, 64, 64),
    (32, 3, 60, 76),
    (33, 16, 63, 32),
    (34, 1, 63, 32),
    (52, 1, 66, 64),
    (52, 2, 66, 52),
    (53, 1, 66, 52),
    (64, 0, 66, 64),
    (64, 2, 66, 64),
    (65, 1, 66, 64),
    (67, 128, 66, 64),
];

// Whether the answer is that refusal.
fn is_fault(answer: Result<Image, ImageFault>, number: u8, at: u32) -> bool {
    match answer {
        Err(ImageFault::Fault { number: n, at: a }) => n == number && a == at,
        _ => false,
    }
}

// A copy of a file with another byte at a place.
fn changed(alloc: Global, file: &[u8], at: usize, byte: u8) -> Result<Vec<u8>, AllocError> {
    let mut copy = Vec::from_slice(alloc, file)?;
    if let Some(place) = copy.get_mut(at) {
        *place = byte;
    }
    Ok(copy)
}

// Whether each of these changes of a file is refused so.
fn are_refused(
    alloc: Global,
    file: &[u8],
    changes: &[(usize, u8, u8, u32)],
) -> Result<bool, AllocError> {
    for (at, byte, number, place) in changes {
        let copy = changed(alloc, file, *at, *byte)?;
        if !is_fault(read_image(alloc, &copy), *number, *place) {
            return Ok(false);
        }
    }
    Ok(true)
}

// Whether each beginning of a file is refused as too short, and the file with a byte behind it as too long.
fn has_one_length(alloc: Global, file: &[u8]) -> Result<bool, AllocError>
    requires { length file.now ≤ 76 }
{
    for length in 0..file.len() {
        if !is_fault(read_image(alloc, &file[..length]), 60, length as u32) {
            return Ok(false);
        }
    }
    let mut longer = Vec::from_slice(alloc, file)?;
    longer.push(0)?;
    Ok(is_fault(read_image(alloc, &longer), 64, file.len() as u32))
}

#[test]
fn small_files_are_read_and_written(rt: HostRuntime) -> Result<(), Fail> {
    let first = read_image(rt.alloc(), &FIRST)?;
    assert_eq!(rt;
        (first.version, first.flags, first.globals, first.frame),
        (1, 1, 8, 16)
    );
    assert_eq!(rt; first.code.as_slice(), [0x94000028, 0xD4000001].as_slice());
    assert_eq!(rt;
        first.constants.as_slice(),
        [1, 2, 3, 4, 5, 6, 7, 8].as_slice()
    );
    assert!(rt; first.places.as_slice().is_empty());
    assert_eq!(rt;
        write_image(rt.alloc(), &first)?.as_slice(),
        FIRST.as_slice()
    );
    let second = read_image(rt.alloc(), &SECOND)?;
    assert_eq!(rt;
        (second.version, second.flags, second.globals, second.frame),
        (2, 1, 8, 16)
    );
    assert_eq!(rt; second.code.as_slice(), [0x94000028, 0xD4000001].as_slice());
    assert_eq!(rt;
        second.constants.as_slice(),
        [1, 2, 3, 4, 5, 6, 7, 8].as_slice()
    );
    let places = second.places.as_slice();
    assert!(rt; places.len() == 2);
    assert_eq!(rt;
        (places[0].word, places[0].module, places[0].line),
        (0, 0, 1)
    );
    assert_eq!(rt;
        (places[1].word, places[1].module, places[1].line),
        (1, 3, 0x1234)
    );
    assert_eq!(rt;
        write_image(rt.alloc(), &second)?.as_slice(),
        SECOND.as_slice()
    );
    Ok(())
}

#[test]
fn changes_are_refused(rt: HostRuntime) -> Result<(), Fail> {
    assert!(rt; are_refused(rt.alloc(), &FIRST, &FIRST_CHANGES)?);
    assert!(rt; are_refused(rt.alloc(), &SECOND, &SECOND_CHANGES)?);
    Ok(())
}

#[test]
fn other_lengths_are_refused(rt: HostRuntime) -> Result<(), Fail> {
    assert!(rt; has_one_length(rt.alloc(), &FIRST)?);
    assert!(rt; has_one_length(rt.alloc(), &SECOND)?);
    Ok(())
}

#[test]
fn the_number_of_places_and_the_frame_have_bounds(rt: HostRuntime) -> Result<(), Fail> {
    let mut file = SECOND;
    file[33] = 16;
    file[32] = 1;
    assert!(rt; is_fault(read_image(rt.alloc(), &file), 63, 32));
    file[32] = 0;
    assert!(rt; is_fault(read_image(rt.alloc(), &file), 60, 76));
    let mut file = SECOND;
    file[30] = 1;
    file[28] = 8;
    assert!(rt; is_fault(read_image(rt.alloc(), &file), 63, 28));
    file[28] = 0;
    assert_eq!(rt; read_image(rt.alloc(), &file)?.frame, 65_536);
    Ok(())
}

#[test]
fn differences_are_found(rt: HostRuntime) -> Result<(), Fail> {
    let second = read_image(rt.alloc(), &SECOND)?;
    assert_eq!(rt; first_difference(&FIRST, &second), None);
    assert_eq!(rt; first_difference(&SECOND, &second), Some(8));
    for at in 0..FIRST.len() {
        let other = changed(rt.alloc(), &FIRST, at, FIRST[at] ^ 0x80)?;
        assert_eq!(rt; first_difference(&other, &second), Some(at as u32));
        assert_eq!(rt; first_difference(&FIRST[..at], &second), Some(at as u32));
    }
    let mut longer = Vec::from_slice(rt.alloc(), &FIRST)?;
    longer.push(0)?;
    assert_eq!(rt; first_difference(&longer, &second), Some(48));
    Ok(())
}

#[test]
fn a_frame_of_version_2_has_a_layout_in_version_1(rt: HostRuntime) -> Result<(), Fail> {
    let mut wide = SECOND;
    wide[28] = 0;
    wide[30] = 1;
    let image = read_image(rt.alloc(), &wide)?;
    let mut file = FIRST;
    file[28] = 0;
    file[30] = 1;
    assert_eq!(rt; first_difference(&file, &image), None);
    assert_eq!(rt; first_difference(&FIRST, &image), Some(28));
    Ok(())
}

// The file of the greatest image of a version.
fn greatest(alloc: Global, version: u32, frame: u32, places: u32) -> Result<Vec<u8>, AllocError> {
    let mut file = Vec::from_slice(alloc, b"TRC64IMG")?;
    for number in [version, 0, 262_144, 8_388_608, 2_097_152, frame] {
        file.extend_from_slice(&number.to_le_bytes())?;
    }
    if version == 2 {
        file.extend_from_slice(&places.to_le_bytes())?;
    }
    file.resize(file.len() + 4 * 262_144 + 2_097_152, 7)?;
    for word in 0..places {
        file.extend_from_slice(&word.to_le_bytes())?;
        file.extend_from_slice(&[63; 8])?;
    }
    Ok(file)
}

#[test]
fn there_is_memory_for_the_greatest_images(rt: HostRuntime) -> Result<(), Fail> {
    let file = greatest(rt.alloc(), 1, 32_768, 0)?;
    let image = read_image(rt.alloc(), &file)?;
    assert!(rt; write_image(rt.alloc(), &image)?.as_slice() == file.as_slice());
    assert_eq!(rt; first_difference(&file, &image), None);
    let file = greatest(rt.alloc(), 2, 65_536, 4096)?;
    let image = read_image(rt.alloc(), &file)?;
    assert_eq!(rt; image.places.as_slice().len(), 4096);
    assert!(rt; write_image(rt.alloc(), &image)?.as_slice() == file.as_slice());
    Ok(())
}
