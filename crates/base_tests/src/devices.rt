//! There is memory for the longest source and the longest input that the program takes.

use memory_devices::{MemFiles, MemSink, MemSource};
use outside::{Files, InFault, read_all, write_all};
use std::test::Fail;

/// The most bytes that a source or the input may have.
const MOST: usize = 1_048_576;

#[test]
fn the_longest_input_is_read(rt: HostRuntime) -> Result<(), Fail> {
    let bytes = vec![in rt.alloc(); 7u8; MOST]?;
    let mut source = MemSource::new(bytes, 65_536, Vec::new(rt.alloc()));
    let read = read_all(rt.alloc(), &mut source, MOST)?;
    assert_eq!(rt; read.len(), MOST);

    let bytes = vec![in rt.alloc(); 7u8; MOST + 1]?;
    let mut source = MemSource::new(bytes, 65_536, Vec::new(rt.alloc()));
    let answer = read_all(rt.alloc(), &mut source, MOST);
    assert!(rt; matches!(answer, Err(InFault::TooLong)));
    Ok(())
}

#[test]
fn the_longest_file_is_held_and_taken(rt: HostRuntime) -> Result<(), Fail> {
    let bytes = vec![in rt.alloc(); 7u8; MOST]?;
    let mut files = MemFiles::new(rt.alloc(), Vec::new(rt.alloc()));
    files.put("M.Mod", &bytes)?;
    let read = files.read(rt.alloc(), "M.Mod", MOST)?;
    let mut sink = MemSink::new(rt.alloc(), MOST, 65_536, Vec::new(rt.alloc()))?;
    write_all(&mut sink, &read)?;
    assert_eq!(rt; sink.bytes().len(), MOST);
    Ok(())
}
