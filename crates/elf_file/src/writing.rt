//! From an image to the bytes of a native program.

ghost use Rattle.std.specs.Prelude.{◌≡◌, ◌+◌, ◌-◌, ◌*◌, ◌≤◌, ◌<◌, ◌^◌, ◌++◌, length, OnOk, IfOk};
ghost use Rattle.std.specs.List.{flat_map};
ghost use Rattle.image_form.specs.Form.{IsInForm};
ghost use Rattle.elf_file.specs.Native.{IsSmall, native_size, links_place, address};
ghost use Rattle.elf_file.specs.Spelling.{four, eight, zeros, file_header, memory, segments, segment_length, segment_bytes, header, elf_bytes};

use crate::native::{NativeSize, address, native_size, native_words};
use a64_memory::{DATA_BASE, FRAMES, FRAMES_BASE, HEAP_BASE, HEAP_WORDS, LOCAL_BASE, LOCAL_WORDS};
use image_form::Image;
use std::alloc::{AllocError, Global};

// Where the words begin in the file.
const WORDS_BEGIN: usize = 65_536;

// 64 bits, lowest byte first; a program with fixed addresses, for AArch64.
const IDENTIFICATION: [u8; 24] = [
    0x7f, b'E', b'L', b'F', 2, 1, 1, 0, 0, 0, 0, 0, 0, 0, 0, 0, 2, 0, 183, 0, 1, 0, 0, 0,
];

// Where the segments' list begins, how long it and its entries are; and none of sections.
const LISTS: [u8; 32] = [
    64, 0, 0, 0, 0, 0, 0, 0, 0, 0, 0, 0, 0, 0, 0, 0, 0, 0, 0, 0, 64, 0, 56, 0, 7, 0, 64, 0, 0, 0,
    0, 0,
];

// What a segment's bytes may be used for.
const EXECUTED: u32 = 5;

const WRITTEN: u32 = 6;

/// A part of memory, and the bytes of the file that it begins with.
#[derive(Clone, Copy)]
pub(crate) struct Segment {
    pub(crate) kind: u32,
    pub(crate) rights: u32,
    pub(crate) place: u64,
    pub(crate) address: u64,
    pub(crate) in_file: u64,
    pub(crate) in_memory: u64,
    pub(crate) alignment: u64,
}

// Memory of zeros.
fn memory(address: u64, bytes: u64) -> Segment
    ensures { result ≡ memory address bytes }
{
    Segment {
        kind: 1,
        rights: WRITTEN,
        place: 0,
        address,
        in_file: 0,
        in_memory: bytes,
        alignment: 65_536,
    }
}

// The segments of a program, of which the first has so many bytes.
fn segments(image: &Image, length: u64) -> [Segment; 7]
    requires form { IsInForm image.now }
    requires length { length ≡ segment_length image.now }
    ensures { result ≡ segments image.now }
{
    let constants = image.constants.as_slice().len() as u64;
    [
        Segment {
            kind: 1,
            rights: EXECUTED,
            place: 65_536,
            address: 65_536,
            in_file: length,
            in_memory: length,
            alignment: 65_536,
        },
        memory(DATA_BASE, image.globals as u64 + constants),
        memory(LOCAL_BASE, 8 * LOCAL_WORDS),
        memory(FRAMES_BASE, FRAMES * image.frame as u64),
        memory(HEAP_BASE, 8 * HEAP_WORDS),
        memory(0x9000_0000, 1_114_112),
        Segment {
            kind: 0x6474_E551,
            rights: WRITTEN,
            place: 0,
            address: 0,
            in_file: 0,
            in_memory: 0,
            alignment: 16,
        },
    ]
}

// Appends the four bytes of a number.
fn put_four(out: &mut Vec<u8>, n: u32) -> Result<(), AllocError>
    ensures { OnOk result (out.new.items ≡ out.old.items ++ four n) }
{
    out.extend_from_slice(&n.to_le_bytes())?;
    Ok(())
}

// Appends the eight bytes of a number.
fn put_eight(out: &mut Vec<u8>, n: u64) -> Result<(), AllocError>
    ensures { OnOk result (out.new.items ≡ out.old.items ++ eight n) }
{
    out.extend_from_slice(&n.to_le_bytes())?;
    Ok(())
}

// Appends the bytes of a segment.
fn put_segment(out: &mut Vec<u8>, segment: &Segment) -> Result<(), AllocError>
    ensures { OnOk result (out.new.items ≡ out.old.items ++ segment_bytes segment.now) }
{
    put_four(out, segment.kind)?;
    put_four(out, segment.rights)?;
    put_eight(out, segment.place)?;
    put_eight(out, segment.address)?;
    put_eight(out, segment.address)?;
    put_eight(out, segment.in_file)?;
    put_eight(out, segment.in_memory)?;
    put_eight(out, segment.alignment)?;
    Ok(())
}

// Appends the bytes of segments.
fn put_segments(out: &mut Vec<u8>, segments: &[Segment]) -> Result<(), AllocError>
    ensures { OnOk result (out.new.items ≡ out.old.items ++ flat_map segment_bytes segments.now) }
{
    for segment in segments {
        put_segment(out, segment)?;
    }
    Ok(())
}

// Appends the first 64 bytes of a program that begins at an address.
fn put_file_header(out: &mut Vec<u8>, image: &Image, size: NativeSize) -> Result<(), AllocError>
    requires size { IsSmall size }
    requires of { size ≡ native_size image.now.code }
    ensures { OnOk result (out.new.items ≡ out.old.items ++ file_header image.now) }
{
    let entry = address(size.links_place() + 1) as u64;
    out.extend_from_slice(&IDENTIFICATION)?;
    put_eight(out, entry)?;
    out.extend_from_slice(&LISTS)?;
    Ok(())
}

// The bytes before the zeros.
fn header(
    alloc: Global,
    image: &Image,
    size: NativeSize,
    length: u64,
) -> Result<Vec<u8>, AllocError>
    requires form { IsInForm image.now }
    requires size { IsSmall size }
    requires of { size ≡ native_size image.now.code }
    requires length { length ≡ segment_length image.now }
    ensures { IfOk result (λ bytes. bytes.items ≡ header image.now) }
{
    let mut bytes = Vec::with_capacity(alloc, WORDS_BEGIN + length as usize)?;
    put_file_header(&mut bytes, image, size)?;
    put_segments(&mut bytes, &segments(image, length))?;
    Ok(bytes)
}

// Appends zeros up to an end.
fn put_zeros(out: &mut Vec<u8>, end: usize) -> Result<(), AllocError>
    requires { length out.old.items ≤ end }
    ensures { OnOk result (out.new.items ≡ out.old.items ++ zeros (end - length out.old.items)) }
{
    out.resize(end, 0)?;
    Ok(())
}

// Appends the bytes of words.
fn put_words(out: &mut Vec<u8>, words: &[u32]) -> Result<(), AllocError>
    ensures { OnOk result (out.new.items ≡ out.old.items ++ flat_map four words.now) }
{
    for word in words {
        put_four(out, *word)?;
    }
    Ok(())
}

/// The bytes of the program of an image in form, for Linux on AArch64. It takes time in proportion to their number.
pub fn write_elf(alloc: Global, image: &Image) -> Result<Vec<u8>, AllocError>
    requires { IsInForm image.now }
    ensures { IfOk result (λ bytes. bytes.items ≡ elf_bytes image.now) }
{
    let size = native_size(image.code.as_slice());
    let constants = image.constants.as_slice();
    let words = native_words(alloc, size, image)?;
    let length = 4 * size.constants_place() as u64 + constants.len() as u64;
    let mut out = header(alloc, image, size, length)?;
    put_zeros(&mut out, WORDS_BEGIN)?;
    put_words(&mut out, words.as_slice())?;
    out.extend_from_slice(constants)?;
    Ok(out)
}
