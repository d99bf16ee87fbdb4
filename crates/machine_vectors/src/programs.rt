//! Programs of a few words, and what they come to.

use crate::effects::byte_of;
use a64_machine::{Halt, Machine};
use image_form::{Bytes, Image, ProcPlaces, Words};
use std::alloc::{AllocError, Global};
use trc_base::{CleanSink, MemSink};

/// A loop that counts to a hundred over and over.
const COUNT: [u32; 5] = [
    0xd280_0000,
    0x9100_0400,
    0xf101_901f,
    0x54ff_ffc1,
    0x17ff_fffc,
];

/// A loop of loads and stores of eight bytes and of one.
const MEMORY: [u32; 7] = [
    0x9100_02a0,
    0xf940_0001,
    0x9100_0421,
    0xf900_0001,
    0x3940_0402,
    0x3900_2402,
    0x17ff_fffb,
];

/// A loop of calls, one within another.
const CALLS: [u32; 7] = [
    0x9400_0002,
    0x17ff_ffff,
    0xaa1e_03e9,
    0x9400_0003,
    0xaa09_03fe,
    0xd65f_03c0,
    0xd65f_03c0,
];

/// A loop of stores at both ends of the frames.
const FRAMES: [u32; 5] = [
    0xd100_23ff,
    0xd2a8_0002,
    0xf900_03e1,
    0xf900_0041,
    0x17ff_fffe,
];

/// A program that uses each service.
const SERVICES: [u32; 18] = [
    0xd280_0820,
    0xd400_0021,
    0x9280_0520,
    0xd280_00c1,
    0xd400_0041,
    0x9100_0300,
    0xd280_0101,
    0xd280_0022,
    0xd400_0061,
    0x9100_2300,
    0xd280_0102,
    0xd400_0061,
    0xd400_0081,
    0xd400_0021,
    0xd400_0081,
    0xd280_0001,
    0xd400_0041,
    0xd400_0001,
];

/// Its constants: a text of bytes, and one of cells.
const TEXTS: &[u8; 32] = b"hi\0\0\0\0\0\0o\0\0\0\0\0\0\0k\0\0\0\0\0\0\0\0\0\0\0\0\0\0\0";

/// The constants of the random programs.
const PROGRAM_TEXT: &[u8; 16] = b"text\0\0\0\0\0\0\0\0\0\0\0\0";

/// The machine with these words, constants and input, and so many bytes of globals and of a frame; none where there
/// are too many.
fn machine(
    alloc: Global,
    words: &[u32],
    constants: &[u8],
    input: &[u8],
    globals: u32,
    frame: u32,
) -> anyhow::Result<Option<Machine>> {
    if words.is_empty()
        || globals > 8_388_608
        || globals % 8 != 0
        || frame == 0
        || frame > 32_768
        || frame % 8 != 0
        || words.len() > 262_144
        || constants.len() > 2_097_152
        || constants.len() % 8 != 0
    {
        return Ok(None);
    }
    let image = Image {
        version: 1,
        flags: 0,
        code: Words::new(Vec::from_slice(alloc, words)?),
        globals,
        constants: Bytes::new(Vec::from_slice(alloc, constants)?),
        frame,
        places: ProcPlaces::new(Vec::new(alloc)),
    };
    let input = Vec::from_slice(alloc, input)?;
    Ok(Some(Machine::load(alloc, image, input)?))
}

/// Runs one loop for so many steps.
pub fn run_loop(rt: &(impl Print + AllocGlobal), name: &str, steps: &str) -> anyhow::Result<()> {
    let (words, frame): (&[u32], u32) = match name {
        "count" => (&COUNT, 8),
        "memory" => (&MEMORY, 8),
        "frames" => (&FRAMES, 32_768),
        _ => (&CALLS, 8),
    };
    let steps = steps.parse::<u64>().unwrap_or(0);
    if let Some(machine) = machine(rt.alloc(), words, &[], &[], 0, frame)? {
        let halt = machine.run(steps, &mut CleanSink::new());
        println!(rt; "{halt:?}")?;
    }
    Ok(())
}

/// The greatest image that a machine loads, whose words add 1 to X0, run for a few steps.
pub fn run_largest(rt: &(impl Print + AllocGlobal)) -> anyhow::Result<()> {
    let words = filled(rt.alloc(), 0x9100_0400, 262_144)?;
    let constants = filled(rt.alloc(), 1, 2_097_152)?;
    if let Some(machine) = machine(
        rt.alloc(),
        words.as_slice(),
        constants.as_slice(),
        &[],
        8_388_608,
        32_768,
    )? {
        let halt = machine.run(100, &mut CleanSink::new());
        println!(rt; "largest {halt:?}")?;
    }
    Ok(())
}

/// So many of one item.
fn filled<T: Copy>(alloc: Global, item: T, count: usize) -> Result<Vec<T>, AllocError> {
    vec![in alloc; item; count]
}

/// Words that stop the machine, each alone in an image.
pub fn run_words(rt: &(impl Print + AllocGlobal)) -> anyhow::Result<()> {
    for word in [0x0000_0000, 0xd400_0121, 0xf940_0020, 0xd400_0001] {
        if let Some(mut machine) = machine(rt.alloc(), &[word], &[], &[], 0, 8)? {
            let mut out = CleanSink::new();
            let step = machine.step(&mut out);
            let again = machine.step(&mut out);
            let halt = machine.run(1, &mut out);
            println!(rt; "{word:08x} {step:?} {again:?} {halt:?}")?;
        }
    }
    Ok(())
}

/// The program that uses each service, with enough steps, with one too few, and into a sink that has too little room.
pub fn run_services(rt: &(impl Print + AllocGlobal)) -> anyhow::Result<()> {
    for (steps, room) in [(18, 64), (17, 64), (18, 9)] {
        let mut out = MemSink::new(rt.alloc(), room, 4, Vec::new(rt.alloc()))?;
        if let Some(machine) = machine(rt.alloc(), &SERVICES, TEXTS, b"Z", 0, 8)? {
            let halt = machine.run(steps, &mut out);
            let text = String::from_utf8_lossy(rt.alloc(), out.bytes())?;
            println!(rt; "{halt:?} {text}")?;
        }
    }
    Ok(())
}

/// Compares each program of the text with the machine, prints those that disagree, and answers whether none does.
pub fn compare(rt: &(impl Print + AllocGlobal), text: &str) -> anyhow::Result<bool> {
    let mut agree: u64 = 0;
    let mut all = true;
    for line in text.lines() {
        if line.starts_with('#') {
            continue;
        }
        if agrees(rt.alloc(), line)? {
            agree = agree.saturating_add(1);
        } else {
            all = false;
            println!(rt; "{line}")?;
        }
    }
    println!(rt; "programs {agree}")?;
    Ok(all)
}

/// Whether the program of the line halts as the line says, having written what it says. Lines say no word of a trap.
fn agrees(alloc: Global, line: &str) -> anyhow::Result<bool> {
    let Some((words, answer)) = line.split_once(" -> ") else {
        return Ok(false);
    };
    let Some((wanted, output)) = answer.split_once(' ') else {
        return Ok(false);
    };
    let Some(words) = words_of(alloc, words)? else {
        return Ok(false);
    };
    let Some(machine) = machine(alloc, words.as_slice(), PROGRAM_TEXT, b"Z!", 8, 16)? else {
        return Ok(false);
    };
    let mut out = MemSink::new(alloc, 4096, 4096, Vec::new(alloc))?;
    let halt = match machine.run(2000, &mut out) {
        Halt::Trapped { kind, .. } => format!(in alloc; "Trapped({kind})")?,
        halt => format!(in alloc; "{halt:?}")?,
    };
    Ok(halt.as_str() == wanted && is_written(out.bytes(), output))
}

/// The words that stand in the text, one blank apart; none where it isn't such a text.
fn words_of(alloc: Global, text: &str) -> anyhow::Result<Option<Vec<u32>>> {
    let mut words = Vec::new(alloc);
    for digits in text.split(' ') {
        let Ok(word) = u32::from_str_radix(digits, 16) else {
            return Ok(None);
        };
        words.push(word)?;
    }
    Ok(Some(words))
}

/// Whether the text has these bytes, each as two hexadecimal digits.
fn is_written(bytes: &[u8], text: &str) -> bool {
    let digits = text.as_bytes();
    if bytes.len() > 4096 || digits.len() != 2 * bytes.len() {
        return false;
    }
    for (byte, pair) in bytes.iter().zip(digits.chunks(2)) {
        if byte_of(pair) != Some(*byte) {
            return false;
        }
    }
    true
}
