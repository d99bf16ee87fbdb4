//! What `exec` tells of changes of an image, in rows, for both versions. Expected values come from the form of images.

use crate::calls::{call, done, refused, wants};
use std::alloc::{AllocError, AllocGlobal, Global};
use std::process::Abort;
use std::sync::Wait;
use std::test::Fail;
use std::thread::Threads;
use trc_base::{Files, MemFiles, MemSource, Source};

/// A number that is put at a byte's place, four bytes of it, and the status and the line that `exec` then comes to.
type Change<'a> = (usize, u32, u8, &'a str);

/// Changes of the image of an empty module in version 1, which has 220 bytes and 47 words.
const FIRST_CHANGES: [Change<'static>; 13] = [
    (8, 0, 8, "trc: not an image: 62 at 8\n"),
    (8, 3, 8, "trc: not an image: 62 at 8\n"),
    (12, 2, 8, "trc: not an image: 63 at 12\n"),
    (12, 1, 0, ""),
    (16, 0, 8, "trc: not an image: 63 at 16\n"),
    (16, 46, 8, "trc: not an image: 64 at 216\n"),
    (16, 48, 8, "trc: not an image: 60 at 220\n"),
    (20, 9, 8, "trc: not an image: 63 at 20\n"),
    (24, 8, 8, "trc: not an image: 60 at 220\n"),
    (28, 4, 8, "trc: not an image: 63 at 28\n"),
    (28, 32_768, 0, ""),
    (28, 32_776, 8, "trc: not an image: 63 at 28\n"),
    (28, 0, 9, "trc: bad address 000000003ffffff8\n"),
];

/// The same of version 2, which has 236 bytes, and the entry of one procedure behind the words.
const SECOND_CHANGES: [Change<'static>; 21] = [
    (8, 0, 8, "trc: not an image: 62 at 8\n"),
    (8, 3, 8, "trc: not an image: 62 at 8\n"),
    (12, 2, 8, "trc: not an image: 63 at 12\n"),
    (12, 1, 0, ""),
    (16, 0, 8, "trc: not an image: 63 at 16\n"),
    (16, 46, 8, "trc: not an image: 64 at 232\n"),
    (16, 48, 8, "trc: not an image: 60 at 236\n"),
    (20, 9, 8, "trc: not an image: 63 at 20\n"),
    (24, 8, 8, "trc: not an image: 60 at 236\n"),
    (28, 4, 8, "trc: not an image: 63 at 28\n"),
    (28, 32_776, 0, ""),
    (28, 65_536, 0, ""),
    (28, 65_544, 8, "trc: not an image: 63 at 28\n"),
    (28, 0, 9, "trc: bad address 000000003ffffff8\n"),
    (32, 0, 8, "trc: not an image: 63 at 32\n"),
    (32, 2, 8, "trc: not an image: 60 at 236\n"),
    (32, 4_096, 8, "trc: not an image: 60 at 236\n"),
    (32, 4_097, 8, "trc: not an image: 63 at 32\n"),
    (224, 46, 0, ""),
    (224, 47, 8, "trc: not an image: 66 at 224\n"),
    (228, 0xFFFF_FFFF, 0, ""),
];

/// The image of `MODULE E; END E.` as `build` writes it.
fn second_image<R: Threads + Wait + AllocGlobal + Sync + Abort>(rt: &R) -> Result<Vec<u8>, Fail> {
    let mut files = MemFiles::new(rt.alloc(), Vec::new(rt.alloc()));
    files.put("E.Mod", b"MODULE E; END E.")?;
    wants(rt, &["build", "A", "E.Mod"], &mut files, b"", done(""))?;
    let bytes = files.read(rt.alloc(), "A", 1000)?;
    assert_eq!(rt; bytes.len(), 236);
    Ok(bytes)
}

/// The same image in version 1: another version, no number of procedures, and no entry.
fn first_image(alloc: Global, second: &[u8]) -> Result<Vec<u8>, AllocError> {
    let mut bytes = Vec::from_slice(alloc, b"TRC64IMG\x01\0\0\0")?;
    for (place, byte) in second.iter().enumerate() {
        if (12..32).contains(&place) || (36..224).contains(&place) {
            bytes.push(*byte)?;
        }
    }
    Ok(bytes)
}

/// Executes the image that a file holds, which comes to this status and line.
fn executes_so<R: Threads + Wait + AllocGlobal + Sync>(
    rt: &R,
    image: &[u8],
    status: u8,
    line: &str,
) -> Result<(), Fail> {
    let mut files = MemFiles::new(rt.alloc(), Vec::new(rt.alloc()));
    files.put("A", image)?;
    wants(rt, &["exec", "A"], &mut files, b"", refused(status, line))
}

/// A file with a number's four bytes in the place of those that are there.
fn changed(alloc: Global, file: &[u8], at: usize, number: u32) -> Result<Vec<u8>, AllocError> {
    let mut copy = Vec::from_slice(alloc, file)?;
    for (place, byte) in number.to_le_bytes().iter().enumerate() {
        if let Some(there) = copy.get_mut(at.saturating_add(place)) {
            *there = *byte;
        }
    }
    Ok(copy)
}

/// Looks at each change of a file, at each of its beginnings, at a byte more, and at each byte of its mark changed.
fn breaks_so<R: Threads + Wait + AllocGlobal + Sync>(
    rt: &R,
    file: &[u8],
    changes: &[Change<'_>],
) -> Result<(), Fail> {
    executes_so(rt, file, 0, "")?;
    for (at, number, status, line) in changes {
        let copy = changed(rt.alloc(), file, *at, *number)?;
        executes_so(rt, &copy, *status, line)?;
    }
    for length in 0..file.len() {
        let line = format!(in rt.alloc(); "trc: not an image: 60 at {length}\n")?;
        executes_so(rt, &file[..length], 8, &line)?;
    }
    let mut longer = Vec::from_slice(rt.alloc(), file)?;
    longer.push(0)?;
    let length = file.len();
    let line = format!(in rt.alloc(); "trc: not an image: 64 at {length}\n")?;
    executes_so(rt, &longer, 8, &line)?;
    for at in 0..8 {
        let mut copy = Vec::from_slice(rt.alloc(), file)?;
        if let Some(byte) = copy.get_mut(at) {
            *byte ^= 1;
        }
        executes_so(rt, &copy, 8, "trc: not an image: 61 at 0\n")?;
    }
    Ok(())
}

#[test]
fn changes_of_an_image_are_told(rt: HostRuntime) -> Result<(), Fail> {
    let second = second_image(&rt)?;
    breaks_so(&rt, &second, SECOND_CHANGES.as_slice())?;
    let first = first_image(rt.alloc(), &second)?;
    assert_eq!(rt; first.len(), 220);
    breaks_so(&rt, &first, FIRST_CHANGES.as_slice())
}

#[test]
fn the_input_is_read_where_an_image_says_so(rt: HostRuntime) -> Result<(), Fail> {
    let second = second_image(&rt)?;
    let first = first_image(rt.alloc(), &second)?;
    for image in [second.as_slice(), first.as_slice()] {
        for (flags, left) in [(0, 1), (1, 0)] {
            let mut files = MemFiles::new(rt.alloc(), Vec::new(rt.alloc()));
            files.put("A", &changed(rt.alloc(), image, 12, flags)?)?;
            let bytes = Vec::from_slice(rt.alloc(), b"a")?;
            let mut input = MemSource::new(bytes, 1, Vec::new(rt.alloc()));
            let none = Vec::new(rt.alloc());
            let seen = call(&rt, &["exec", "A"], &mut files, &mut input, 100, none)?;
            assert_eq!(rt; seen.outcome.status, 0);
            let mut piece = [0u8; 1];
            let Ok(count) = input.read(&mut piece) else {
                return Err("the input fails".into());
            };
            assert_eq!(rt; count, left);
        }
    }
    Ok(())
}
