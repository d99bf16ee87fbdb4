//! Lines that say what stands in registers and memory before a word is carried out, and after.

use a64_machine::{Core, Step, service_number};
use a64_memory::{Region, load8, store1};
use a64_numbers::Flags;
use a64_table::decode;
use std::alloc::{AllocError, Global};
use std::io;

/// How many bytes the memory has of which the lines speak.
const BYTES: usize = 65_536;

/// What a register holds of which a line says nothing.
const OTHER: u64 = 0x5a5a_a5a5_0123_4567;

/// Compares each line with the machine, its memory at this base, prints those that disagree, and answers whether
/// none does.
pub fn compare(rt: &(impl Print + AllocGlobal), text: &str, base: u64) -> io::Result<bool> {
    let mut agree: u64 = 0;
    let mut all = true;
    for line in text.lines() {
        if line.starts_with('#') {
            continue;
        }
        if agrees(rt.alloc(), line, base)? {
            agree = agree.saturating_add(1);
        } else {
            all = false;
            println!(rt; "{line}")?;
        }
    }
    println!(rt; "effects {agree}")?;
    Ok(all)
}

/// Whether the line agrees with the machine.
fn agrees(alloc: Global, line: &str, base: u64) -> Result<bool, AllocError> {
    let Some((before, after)) = line.split_once(" -> ") else {
        return Ok(false);
    };
    let Some((digits, before)) = before.split_once(' ') else {
        return Ok(false);
    };
    let Ok(word) = u32::from_str_radix(digits, 16) else {
        return Ok(false);
    };
    let mut core = blank(alloc, base)?;
    let mut wanted = blank(alloc, base)?;
    if !apply_all(&mut core, before, base)
        || !apply_all(&mut wanted, before, base)
        || !apply_all(&mut wanted, after, base)
    {
        return Ok(false);
    }
    wanted.pc = wanted.pc.wrapping_add(4);
    Ok(goes_on(&mut core, word) && is_same(&core, &wanted, base))
}

/// A machine's registers and memory of which no line has spoken.
fn blank(alloc: Global, base: u64) -> Result<Core, AllocError> {
    let mut memory = Vec::with_capacity(alloc, 1)?;
    memory.push(Region::zeros(alloc, base, BYTES)?)?;
    Ok(Core {
        registers: [OTHER; 31],
        sp: OTHER,
        pc: 0x1_0000,
        flags: flags_of(0),
        memory,
        input: Vec::new(alloc),
        taken: 0,
    })
}

/// Whether the word is carried out and the machine goes on.
fn goes_on(core: &mut Core, word: u32) -> bool {
    let Some(i) = decode(word) else {
        return false;
    };
    if core.pc > u64::from(u32::MAX) {
        return false;
    }
    match service_number(&i) {
        Some(_) => false,
        None => matches!(core.execute(&i), Step::Going),
    }
}

fn is_same(core: &Core, wanted: &Core, base: u64) -> bool {
    core.registers == wanted.registers
        && core.sp == wanted.sp
        && core.pc == wanted.pc
        && core.flags == wanted.flags
        && holds_same(&core.memory, &wanted.memory, base)
}

/// Whether two memories have the same bytes.
fn holds_same(memory: &[Region], wanted: &[Region], base: u64) -> bool {
    for at in 0..BYTES / 8 {
        let address = base.wrapping_add(8 * at as u64);
        if load8(memory, address) != load8(wanted, address) {
            return false;
        }
    }
    true
}

/// Makes what each part of the text says true. False where one isn't understood.
fn apply_all(core: &mut Core, text: &str, base: u64) -> bool {
    for part in text.split(' ') {
        if !apply(core, part, base) {
            return false;
        }
    }
    true
}

/// Makes what one part says true: flags, a register, SP, or bytes of the memory.
fn apply(core: &mut Core, part: &str, base: u64) -> bool {
    let Some((name, value)) = part.split_once('=') else {
        return false;
    };
    if name == "n" {
        return set_flags(core, value);
    }
    if name == "sp" {
        return set_sp(core, value, base);
    }
    if let Some(number) = name.strip_prefix('x') {
        return set_register(core, number, value, base);
    }
    match name.strip_prefix('m') {
        Some(at) => set_bytes(core, at, value, base),
        None => false,
    }
}

fn set_flags(core: &mut Core, value: &str) -> bool {
    let Ok(number) = u8::from_str_radix(value, 16) else {
        return false;
    };
    core.flags = flags_of(number);
    true
}

/// N is 8, Z is 4, C is 2, V is 1.
fn flags_of(number: u8) -> Flags {
    Flags {
        negative: number & 8 != 0,
        zero: number & 4 != 0,
        carry: number & 2 != 0,
        overflow: number & 1 != 0,
    }
}

fn set_sp(core: &mut Core, value: &str, base: u64) -> bool {
    let Some(value) = number_of(value, base) else {
        return false;
    };
    core.sp = value;
    true
}

fn set_register(core: &mut Core, number: &str, value: &str, base: u64) -> bool {
    let Ok(number) = number.parse::<usize>() else {
        return false;
    };
    let Some(value) = number_of(value, base) else {
        return false;
    };
    if number >= 31 {
        return false;
    }
    core.registers[number] = value;
    true
}

/// A number in hexadecimal digits, or an address as its distance from the base.
fn number_of(value: &str, base: u64) -> Option<u64> {
    if let Some(up) = value.strip_prefix("@+") {
        return Some(base.wrapping_add(u64::from_str_radix(up, 16).ok()?));
    }
    if let Some(down) = value.strip_prefix("@-") {
        return Some(base.wrapping_sub(u64::from_str_radix(down, 16).ok()?));
    }
    u64::from_str_radix(value, 16).ok()
}

/// Writes bytes at a distance from the base: those of an address, or pairs of hexadecimal digits.
fn set_bytes(core: &mut Core, at: &str, value: &str, base: u64) -> bool {
    let Ok(at) = u64::from_str_radix(at, 16) else {
        return false;
    };
    let address = base.wrapping_add(at);
    if value.starts_with('@') {
        return match number_of(value, base) {
            Some(number) => write(core, address, &number.to_le_bytes()),
            None => false,
        };
    }
    for (i, pair) in value.as_bytes().chunks(2).enumerate() {
        let Some(byte) = byte_of(pair) else {
            return false;
        };
        if !write(core, address.wrapping_add(i as u64), &[byte]) {
            return false;
        }
    }
    true
}

fn write(core: &mut Core, address: u64, bytes: &[u8]) -> bool {
    for (i, byte) in bytes.iter().enumerate() {
        if !store1(
            &mut core.memory,
            address.wrapping_add(i as u64),
            *byte as u64,
        ) {
            return false;
        }
    }
    true
}

/// The byte of two hexadecimal digits.
pub fn byte_of(pair: &[u8]) -> Option<u8> {
    match pair {
        [high, low] => Some(digit_of(*high)? << 4 | digit_of(*low)?),
        _ => None,
    }
}

fn digit_of(digit: u8) -> Option<u8> {
    match digit {
        b'0'..=b'9' => Some(digit - b'0'),
        b'a'..=b'f' => Some(digit - b'a' + 10),
        _ => None,
    }
}
