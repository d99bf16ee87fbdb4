//! A native program on the machine, with the machine's services in place of Linux's calls.
//!
//! The machine can't read from its code, and has no memory where the runtime has its own: that lies at the heap's end here, no
//! constants are copied (the machine has them in place), the text of traps stands behind the constants, and the entry and the
//! calls of Linux go to words behind the program.

use crate::images::{Sizes, image_of};
use a64_machine::{Halt, Machine};
use std::alloc::{AllocError, Global};
use trc_base::{MemSink, Memory};

/// How many words the runtime has, and the links before it.
const RUNTIME: usize = 250;

const LINKS: usize = 10;

/// Where the runtime's words call Linux, and where it sets SP.
const SETS_SP: usize = 7;

const SETS_SIGNAL: usize = 15;

const READS: usize = 23;

const WRITES: [usize; 2] = [106, 245];

/// The three words of the text of traps, and the word behind them, which takes its address.
const TEXT: usize = 203;

const TAKES_TEXT: usize = 206;

/// MOVZ X8,#33775,LSL 16: 17 pages of 64 KiB before the heap's end.
const OWN_MEMORY: u32 = 0xD2B0_7DE8;

/// ORR X0,XZR,X0; MOVZ X2,#0.
const NOTHING: u32 = 0xAA00_03E0;

const NO_CONSTANTS: u32 = 0xD280_0002;

/// X7 and X8 count X2 bytes from X1 on: ORR X7,XZR,X1; ORR X8,XZR,X2; CBZ X8,+24; LDRB X0,[X7]; SVC #1; ADD X7,X7,#1;
/// SUB X8,X8,#1; B -20; ORR X0,XZR,X2
const WRITING: [u32; 9] = [
    0xAA01_03E7,
    0xAA02_03E8,
    0xB400_00C8,
    0x3940_00E0,
    0xD400_0021,
    0x9100_04E7,
    0xD100_0508,
    0x17FF_FFFB,
    0xAA02_03E0,
];

/// X3 and X8 count at most X2 bytes from X1 on: ORR X3,XZR,X1; ORR X8,XZR,X2; CBZ X8,+32; SVC #4; SUBS XZR,X0,#256; B.HS +20;
/// STRB X0,[X3]; ADD X3,X3,#1; SUB X8,X8,#1; B -28; SUB X0,X3,X1
const READING: [u32; 11] = [
    0xAA01_03E3,
    0xAA02_03E8,
    0xB400_0108,
    0xD400_0081,
    0xF104_001F,
    0x5400_00A2,
    0x3900_0060,
    0x9100_0463,
    0xD100_0508,
    0x17FF_FFF9,
    0xCB01_0060,
];

/// X30 becomes the address of the second word: MOVZ X30,#4; MOVK X30,#1,LSL 16.
const BEHIND_FIRST: [u32; 2] = [0xD280_009E, 0xF2A0_003E];

/// B from a word to a word.
fn branch(from: usize, to: usize) -> u32 {
    0x1400_0000 | ((to as u64).wrapping_sub(from as u64) & 0x03FF_FFFF) as u32
}

/// Puts a word in the place of another.
fn put(words: &mut [u32], at: usize, word: u32) {
    if let Some(there) = words.get_mut(at) {
        *there = word;
    }
}

/// X0 becomes a number.
fn loading(n: u32) -> [u32; 2] {
    [
        0xD280_0000 | (n & 0xFFFF) << 5,
        0xF2A0_0000 | (n >> 16) << 5,
    ]
}

/// Lets the word at a place go to words that are appended, and these back behind it.
fn detour(words: &mut Vec<u32>, at: usize, by: &[u32]) -> Result<(), AllocError> {
    let begin = words.len();
    put(words.as_mut_slice(), at, branch(at, begin));
    words.extend_from_slice(by)?;
    let end = words.len();
    words.push(branch(end, at.saturating_add(1)))?;
    Ok(())
}

/// The words of bytes.
fn words_of(alloc: Global, bytes: &[u8]) -> Result<Vec<u32>, AllocError> {
    let mut words = Vec::new(alloc);
    for word in bytes.chunks_exact(4) {
        if let [a, b, c, d] = word {
            words.push(u32::from_le_bytes([*a, *b, *c, *d]))?;
        }
    }
    Ok(words)
}

/// The words of a native program, with the machine's services in place of Linux's calls and the text of traps at an address.
fn on_machine(alloc: Global, program: &[u8], text: u32) -> Result<Vec<u32>, AllocError> {
    let mut words = words_of(alloc, program)?;
    let runtime = words.len().saturating_sub(RUNTIME);
    let links = runtime.saturating_sub(LINKS);
    let first = words.first().copied().unwrap_or(0);
    // The links go to where the first word's branch goes, as the machine begins at that word's place.
    let begin = words.len();
    put(words.as_mut_slice(), links, branch(links, begin));
    if first >> 26 == 0x25 {
        words.extend_from_slice(&BEHIND_FIRST)?;
    }
    let from = words.len();
    words.push(branch(from, (first & 0x03FF_FFFF) as usize))?;
    put(words.as_mut_slice(), 0, branch(0, links.saturating_add(1)));
    put(words.as_mut_slice(), links.saturating_add(5), NO_CONSTANTS);
    put(words.as_mut_slice(), links.saturating_add(6), NO_CONSTANTS);
    put(
        words.as_mut_slice(),
        runtime.saturating_add(SETS_SP),
        OWN_MEMORY,
    );
    put(
        words.as_mut_slice(),
        runtime.saturating_add(SETS_SIGNAL),
        NOTHING,
    );
    detour(
        &mut words,
        runtime.saturating_add(TAKES_TEXT),
        &loading(text),
    )?;
    detour(&mut words, runtime.saturating_add(READS), &READING)?;
    for write in WRITES {
        detour(&mut words, runtime.saturating_add(write), &WRITING)?;
    }
    Ok(words)
}

/// The text of traps, with the four bytes behind it.
fn text_of(program: &[u8]) -> &[u8] {
    let begin = program.len().saturating_sub(4 * (RUNTIME - TEXT));
    let end = begin.saturating_add(16).min(program.len());
    program.get(begin..end).unwrap_or(&[])
}

/// What a native program with these sizes and constants writes on an input, output and errors in one; nothing where the machine
/// doesn't end.
pub(crate) fn written(
    alloc: Global,
    sizes: Sizes,
    constants: &[u8],
    program: &[u8],
    input: &[u8],
) -> Result<Option<Vec<u8>>, Memory> {
    let mut constants = Vec::from_slice(alloc, constants)?;
    let text = 0x1000_0000_u32
        .saturating_add(sizes.globals)
        .saturating_add(u32::try_from(constants.len()).unwrap_or(0));
    constants.extend_from_slice(text_of(program))?;
    let words = on_machine(alloc, program, text)?;
    let sizes = Sizes { flags: 0, ..sizes };
    let Some(image) = image_of(alloc, sizes, words, constants) else {
        return Ok(None);
    };
    let machine = Machine::load(alloc, image, Vec::from_slice(alloc, input)?)?;
    let mut out = MemSink::new(alloc, 65_536, 65_536, Vec::new(alloc))?;
    match machine.run(1_000_000, &mut out) {
        Halt::Ended => Ok(Some(Vec::from_slice(alloc, out.bytes())?)),
        _ => Ok(None),
    }
}
