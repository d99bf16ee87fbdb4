//! The line that tells a cause.

ghost use Rattle.std.specs.Prelude.{◌≡◌, ◌<◌, ◌≤◌, ◌++◌, Some, codes, length, map, OnOk, OnErr};
ghost use Rattle.outside.specs.Sink.{TookAll, Faulted};
ghost use Rattle.out_text.specs.Text.{shortest_text};
ghost use Rattle.trc_answers.specs.Causes.{device_name, fault_line, hex, hex_digit, limit_line, line, line_of, name_at, source_line, spot_line, trap_line, unsound_line};

use crate::causes::{Cause, Device, Spot};
use crate::names::{limit_name, rule_name};
use crate::places::Position;
use a64_machine::Step;
use out_text::IntText;
use outside::{Sink, WriteFault, write_all};

/// A device's name in a line.
fn name_of(device: Device) -> &'static [u8]
    ensures { result.now ≡ device_name device }
{
    match device {
        Device::Files => b"files",
        Device::Input => b"input",
        Device::Output => b"output",
    }
}

/// Writes a message, what stands behind it, and the line's end.
fn say<E: Sink>(err: &mut E, message: &[u8], rest: &[u8]) -> Result<(), WriteFault>
    ensures all { OnOk result (TookAll (E.account err.old) (E.account err.new) (line message.now rest.now)) }
    ensures rises { (E.account err.old).faults ≤ (E.account err.new).faults }
    ensures failed { OnErr result (Faulted (E.account err.old) (E.account err.new)) }
{
    write_all(err, message)?;
    write_all(err, rest)?;
    write_all(err, b"\n")?;
    Ok(())
}

/// The text of a number in decimal.
fn decimal(number: u64) -> IntText
    ensures { result ≡ shortest_text number }
{
    IntText::new(number, 0)
}

/// Writes a message and a number.
fn put_number<E: Sink>(err: &mut E, message: &[u8], number: u64) -> Result<(), WriteFault>
    ensures all { OnOk result (TookAll (E.account err.old) (E.account err.new) (message.now ++ shortest_text number)) }
    ensures rises { (E.account err.old).faults ≤ (E.account err.new).faults }
    ensures failed { OnErr result (Faulted (E.account err.old) (E.account err.new)) }
{
    write_all(err, message)?;
    write_all(err, decimal(number).as_slice())?;
    Ok(())
}

/// Writes the line of bytes that are no image.
fn say_no_image<E: Sink>(err: &mut E, number: u8, at: u32) -> Result<(), WriteFault>
    ensures all { OnOk result (TookAll (E.account err.old) (E.account err.new) (line (codes "trc: not an image: ") (shortest_text number ++ (codes " at " ++ shortest_text at)))) }
    ensures rises { (E.account err.old).faults ≤ (E.account err.new).faults }
    ensures failed { OnErr result (Faulted (E.account err.old) (E.account err.new)) }
{
    put_number(err, b"trc: not an image: ", u64::from(number))?;
    say(err, b" at ", decimal(u64::from(at)).as_slice())?;
    Ok(())
}

/// Writes the line of bytes that are no notes.
fn say_no_notes<E: Sink>(err: &mut E, number: u8, at: u32) -> Result<(), WriteFault>
    ensures all { OnOk result (TookAll (E.account err.old) (E.account err.new)
        (line (codes "trc: not notes: ") (shortest_text number ++ (codes " at " ++ shortest_text at)))) }
    ensures rises { (E.account err.old).faults ≤ (E.account err.new).faults }
    ensures failed { OnErr result (Faulted (E.account err.old) (E.account err.new)) }
{
    put_number(err, b"trc: not notes: ", u64::from(number))?;
    say(err, b" at ", decimal(u64::from(at)).as_slice())?;
    Ok(())
}

/// Writes the line of bytes that are no object.
fn say_no_object<E: Sink>(err: &mut E, number: u8, at: u32) -> Result<(), WriteFault>
    ensures all { OnOk result (TookAll (E.account err.old) (E.account err.new)
        (line (codes "trc: not an object: ") (shortest_text number ++ (codes " at " ++ shortest_text at)))) }
    ensures rises { (E.account err.old).faults ≤ (E.account err.new).faults }
    ensures failed { OnErr result (Faulted (E.account err.old) (E.account err.new)) }
{
    put_number(err, b"trc: not an object: ", u64::from(number))?;
    say(err, b" at ", decimal(u64::from(at)).as_slice())?;
    Ok(())
}

/// Writes the line of results that aren't sound.
fn say_unsound<E: Sink>(err: &mut E, trace: u32, node: u32, line: u32) -> Result<(), WriteFault>
    ensures all { OnOk result (TookAll (E.account err.old) (E.account err.new) (unsound_line trace node line)) }
    ensures rises { (E.account err.old).faults ≤ (E.account err.new).faults }
    ensures failed { OnErr result (Faulted (E.account err.old) (E.account err.new)) }
{
    put_number(err, b"trc: unsound ", u64::from(trace))?;
    put_number(err, b" ", u64::from(node))?;
    say(err, b" ", decimal(u64::from(line)).as_slice())?;
    Ok(())
}

/// Writes a file's name, a line and a column.
fn put_place<E: Sink>(err: &mut E, name: &[u8], place: Position) -> Result<(), WriteFault>
    ensures all { OnOk result (TookAll (E.account err.old) (E.account err.new)
        (codes "trc: " ++ (name.now ++ (codes ":" ++ (shortest_text place.line ++ (codes ":" ++ shortest_text place.column)))))) }
    ensures rises { (E.account err.old).faults ≤ (E.account err.new).faults }
    ensures failed { OnErr result (Faulted (E.account err.old) (E.account err.new)) }
{
    write_all(err, b"trc: ")?;
    write_all(err, name)?;
    put_number(err, b":", place.line as u64)?;
    put_number(err, b":", place.column as u64)?;
    Ok(())
}

/// Writes the line of a rule that is broken.
fn say_source<E: Sink>(
    err: &mut E,
    name: &[u8],
    place: Position,
    number: u8,
) -> Result<(), WriteFault>
    ensures all { OnOk result (TookAll (E.account err.old) (E.account err.new) (source_line name.now place number)) }
    ensures rises { (E.account err.old).faults ≤ (E.account err.new).faults }
    ensures failed { OnErr result (Faulted (E.account err.old) (E.account err.new)) }
{
    put_place(err, name, place)?;
    put_number(err, b": error ", u64::from(number))?;
    say(err, b" ", rule_name(number).as_bytes())?;
    Ok(())
}

/// Writes the line of a limit that is passed.
fn say_limit<E: Sink>(err: &mut E, number: u8, index: u32) -> Result<(), WriteFault>
    ensures all { OnOk result (TookAll (E.account err.old) (E.account err.new) (limit_line number index)) }
    ensures rises { (E.account err.old).faults ≤ (E.account err.new).faults }
    ensures failed { OnErr result (Faulted (E.account err.old) (E.account err.new)) }
{
    put_number(err, b"trc: limit ", u64::from(number))?;
    write_all(err, b" ")?;
    write_all(err, limit_name(number))?;
    say(err, b" at ", decimal(u64::from(index)).as_slice())?;
    Ok(())
}

/// Writes the line of a trap.
fn say_trap<E: Sink>(err: &mut E, kind: u16, spot: Option<Spot>) -> Result<(), WriteFault>
    ensures all { OnOk result (TookAll (E.account err.old) (E.account err.new) (trap_line kind spot)) }
    ensures rises { (E.account err.old).faults ≤ (E.account err.new).faults }
    ensures failed { OnErr result (Faulted (E.account err.old) (E.account err.new)) }
{
    put_number(err, b"trc: trap ", u64::from(kind))?;
    match spot {
        Some(spot) => say_spot(err, spot),
        None => write_all(err, b"\n"),
    }
}

/// Writes what stands behind a trap's kind.
fn say_spot<E: Sink>(err: &mut E, spot: Spot) -> Result<(), WriteFault>
    ensures all { OnOk result (TookAll (E.account err.old) (E.account err.new) (spot_line (Some spot))) }
    ensures rises { (E.account err.old).faults ≤ (E.account err.new).faults }
    ensures failed { OnErr result (Faulted (E.account err.old) (E.account err.new)) }
{
    put_number(err, b" in module ", u64::from(spot.module))?;
    say(err, b" line ", decimal(u64::from(spot.line)).as_slice())
}

/// A hexadecimal digit, in lower case.
fn hex_digit(number: u8) -> u8
    requires { number < 16 }
    ensures { result ≡ hex_digit number }
{
    if number < 10 {
        b'0' + number
    } else {
        b'a' - 10 + number
    }
}

/// Fills the digits with those of a number, in hexadecimal.
fn put_hex(digits: &mut [u8], number: u64)
    ensures { digits.new ≡ hex (length digits.old) number }
{
    let mut left = number;
    let mut at = digits.len();
    while at > 0 {
        at -= 1;
        digits[at] = hex_digit((left % 16) as u8);
        left /= 16;
    }
}

/// Writes the line of a word that isn't in the table.
fn say_undefined<E: Sink>(err: &mut E, word: u32) -> Result<(), WriteFault>
    ensures all { OnOk result (TookAll (E.account err.old) (E.account err.new) (fault_line (Step.Undefined word))) }
    ensures rises { (E.account err.old).faults ≤ (E.account err.new).faults }
    ensures failed { OnErr result (Faulted (E.account err.old) (E.account err.new)) }
{
    let mut digits = [b'0'; 8];
    put_hex(&mut digits, word as u64);
    say(err, b"trc: undefined word ", &digits)
}

/// Writes the line of an address that can't be used.
fn say_bad_address<E: Sink>(err: &mut E, address: u64) -> Result<(), WriteFault>
    ensures all { OnOk result (TookAll (E.account err.old) (E.account err.new) (fault_line (Step.BadAddress address))) }
    ensures rises { (E.account err.old).faults ≤ (E.account err.new).faults }
    ensures failed { OnErr result (Faulted (E.account err.old) (E.account err.new)) }
{
    let mut digits = [b'0'; 16];
    put_hex(&mut digits, address);
    say(err, b"trc: bad address ", &digits)
}

/// Writes the line of what the machine can't do.
fn say_fault<E: Sink>(err: &mut E, fault: Step) -> Result<(), WriteFault>
    ensures all { OnOk result (TookAll (E.account err.old) (E.account err.new) (fault_line fault)) }
    ensures rises { (E.account err.old).faults ≤ (E.account err.new).faults }
    ensures failed { OnErr result (Faulted (E.account err.old) (E.account err.new)) }
{
    match fault {
        Step::Undefined(word) => say_undefined(err, word),
        Step::BadAddress(address) => say_bad_address(err, address),
        Step::BadCall(number) => say(
            err,
            b"trc: bad call ",
            decimal(u64::from(number)).as_slice(),
        ),
        Step::Going | Step::Ended | Step::Trapped { .. } | Step::WriteFault => write_all(err, b""),
    }
}

/// A name by its number, or no bytes where there is none.
fn name_at<'a>(names: &[&'a str], number: u64) -> &'a [u8]
    ensures { result.now ≡ name_at (map (λ name. name.now) names.now) number }
{
    let at = number as usize;
    if at < names.len() {
        names[at].as_bytes()
    } else {
        b""
    }
}

/// Writes the line of a cause of a command that reads the files of these names, the modules' at this number and behind it, where a
/// rule is broken at this place.
pub fn report<E: Sink>(
    err: &mut E,
    cause: Cause,
    place: Position,
    names: &[&str],
    first: u32,
) -> Result<(), WriteFault>
    ensures all { OnOk result (TookAll (E.account err.old) (E.account err.new) (line_of (map (λ name. name.now) names.now) first place cause)) }
    ensures rises { (E.account err.old).faults ≤ (E.account err.new).faults }
    ensures failed { OnErr result (Faulted (E.account err.old) (E.account err.new)) }
{
    match cause {
        Cause::Usage => say(err, b"trc: usage", b""),
        Cause::NoSuchFile { word } => say(err, b"trc: no file ", name_at(names, u64::from(word))),
        Cause::ReadFault { device } => say(err, b"trc: read fault on ", name_of(device)),
        Cause::Source { number, module, .. } => {
            let name = name_at(names, u64::from(first) + u64::from(module));
            say_source(err, name, place, number)
        }
        Cause::Limit { number, index } => say_limit(err, number, index),
        Cause::BadLine { line } => say(err, b"trc: bad line ", decimal(u64::from(line)).as_slice()),
        Cause::OtherImage { at } => say(
            err,
            b"trc: other image at ",
            decimal(u64::from(at)).as_slice(),
        ),
        Cause::NotImage { number, at } => say_no_image(err, number, at),
        Cause::NotNotes { number, at } => say_no_notes(err, number, at),
        Cause::NotObject { number, at, .. } => say_no_object(err, number, at),
        Cause::OtherChoice { object } => say(
            err,
            b"trc: other choice at ",
            decimal(u64::from(object)).as_slice(),
        ),
        Cause::Unsound { trace, node, line } => say_unsound(err, trace, node, line),
        Cause::InputTooLong => say(err, b"trc: input too long", b""),
        Cause::Trapped { kind, spot } => say_trap(err, kind, spot),
        Cause::MachineFault { fault } => say_fault(err, fault),
        Cause::Spent => say(err, b"trc: steps spent", b""),
        Cause::TurnsSpent => say(err, b"trc: turns spent", b""),
        Cause::WriteFault { device } => say(err, b"trc: write fault on ", name_of(device)),
        Cause::Memory => say(err, b"trc: out of memory", b""),
        Cause::Done => write_all(err, b""),
    }
}
