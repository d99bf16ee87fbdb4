//! An image is run, and what is read before it.

ghost use Rattle.std.specs.Prelude.{◌≡◌, ◌^◌, ◌≤◌, ℕ, Option};
ghost use Rattle.outside.specs.Files.{Held};
ghost use Rattle.a64_memory.specs.Memory.{AreBytes};
ghost use Rattle.image_form.specs.Form.{IsInForm};
ghost use Rattle.image_form.specs.Places.{RiseBelow};
ghost use Rattle.trc_answers.specs.Runs.{cause_of_fault, run_of, spot_at};
ghost use Rattle.trc_answers.specs.Causes.{IsPlain};
ghost use Rattle.trc_answers.specs.Verdict.{BytesComeTo, FileComesTo, ImageComesTo};
ghost use Rattle.trc_answers.specs.Answers.{Answers, RunAnswers, devices};

use crate::causes::{Cause, Device, Spot};
use crate::reading::read_image_file;
use a64_machine::{Halt, Machine, Step};
use image_file::{ImageFault, read_image};
use image_form::{Image, ProcPlace, place_before};
use outside::{Files, InFault, Sink, Source, read_all};
use std::alloc::Global;

/// The most bytes that the input may have.
const MOST_INPUT: usize = 1_048_576;

/// The spot of the procedure in which a code word stands, by the places of an image.
fn spot_at(places: &[ProcPlace], word: u32) -> Option<Spot>
    requires { RiseBelow (2 ^ 32) 0 places.now }
    ensures { result ≡ spot_at places.now word }
{
    let place = place_before(places, word)?;
    Some(Spot {
        module: place.module,
        line: place.line,
    })
}

/// Runs an image on an input, for at most so many steps.
pub fn run_on<O: Sink>(
    alloc: Global,
    image: Image,
    input: Vec<u8>,
    steps: u64,
    out: &mut O,
) -> Cause
    requires { IsInForm image }
    ensures answers { RunAnswers image.places (run_of image input.items steps) (O.account out.old) (O.account out.new) result }
    ensures plain { IsPlain result }
    ensures rises { (O.account out.old).faults ≤ (O.account out.new).faults }
{
    let Ok(places) = Vec::from_slice(alloc, image.places.as_slice()) else {
        return Cause::Memory;
    };
    let Ok(machine) = Machine::load(alloc, image, input) else {
        return Cause::Memory;
    };
    match machine.run(steps, out) {
        Halt::Ended => Cause::Done,
        Halt::Spent => Cause::Spent,
        Halt::Trapped { kind, word } => Cause::Trapped {
            kind,
            spot: spot_at(&places, word),
        },
        Halt::Undefined(word) => Cause::MachineFault {
            fault: Step::Undefined(word),
        },
        Halt::BadAddress(address) => Cause::MachineFault {
            fault: Step::BadAddress(address),
        },
        Halt::BadCall(number) => Cause::MachineFault {
            fault: Step::BadCall(number),
        },
        Halt::WriteFault => Cause::WriteFault {
            device: Device::Output,
        },
    }
}

/// The numbers of a list of bytes are bytes, as what is said of runs asks of an input.
fn are_bytes(bytes: &[u8])
    ensures { AreBytes bytes.now }
{}

/// Runs an image, on the input where the image reads it.
pub fn run_image<I: Source, O: Sink>(
    alloc: Global,
    image: Image,
    steps: u64,
    input: &mut I,
    out: &mut O,
) -> Cause
    requires { IsInForm image }
    ensures answers { (held : Option Held) (faults : ℕ)
        → Answers (λ left. ImageComesTo left steps image)
        (devices held faults (I.left input.old) (I.faults input.old) (O.account out.old))
        (devices held faults (I.left input.new) (I.faults input.new) (O.account out.new)) result }
    ensures plain { IsPlain result }
    ensures input_rises { I.faults input.old ≤ I.faults input.new }
    ensures out_rises { (O.account out.old).faults ≤ (O.account out.new).faults }
{
    if image.flags == 0 {
        return run_on(alloc, image, Vec::new(alloc), steps, out);
    }
    match read_all(alloc, input, MOST_INPUT) {
        Ok(bytes) => {
            are_bytes(bytes.as_slice());
            run_on(alloc, image, bytes, steps, out)
        }
        Err(InFault::TooLong) => Cause::InputTooLong,
        Err(InFault::ReadFault) => Cause::ReadFault {
            device: Device::Input,
        },
        Err(InFault::Memory) => Cause::Memory,
    }
}

/// The cause of bytes that are no image.
fn no_image(fault: ImageFault) -> Cause
    ensures is { result ≡ cause_of_fault fault }
    ensures plain { IsPlain result }
{
    match fault {
        ImageFault::Fault { number, at } => Cause::NotImage { number, at },
        ImageFault::Memory => Cause::Memory,
    }
}

/// Runs the image that these bytes are.
fn run_bytes<I: Source, O: Sink>(
    alloc: Global,
    bytes: &[u8],
    steps: u64,
    input: &mut I,
    out: &mut O,
) -> Cause
    ensures answers { (held : Option Held) (faults : ℕ)
        → Answers (λ left. BytesComeTo left steps bytes.now)
        (devices held faults (I.left input.old) (I.faults input.old) (O.account out.old))
        (devices held faults (I.left input.new) (I.faults input.new) (O.account out.new)) result }
    ensures plain { IsPlain result }
    ensures input_rises { I.faults input.old ≤ I.faults input.new }
    ensures out_rises { (O.account out.old).faults ≤ (O.account out.new).faults }
{
    match read_image(alloc, bytes) {
        Ok(image) => run_image(alloc, image, steps, input, out),
        Err(fault) => no_image(fault),
    }
}

/// Runs the image that the file of this name holds.
pub fn exec<F: Files, I: Source, O: Sink>(
    alloc: Global,
    image: &str,
    steps: u64,
    files: &mut F,
    input: &mut I,
    out: &mut O,
) -> Cause
    ensures answers { Answers (λ left. FileComesTo (F.held files.old) 0 image.now (BytesComeTo left steps))
        (devices (F.held files.old) (F.faults files.old) (I.left input.old) (I.faults input.old) (O.account out.old))
        (devices (F.held files.new) (F.faults files.new) (I.left input.new) (I.faults input.new) (O.account out.new)) result }
    ensures plain { IsPlain result }
    ensures files_rise { F.faults files.old ≤ F.faults files.new }
    ensures input_rises { I.faults input.old ≤ I.faults input.new }
    ensures out_rises { (O.account out.old).faults ≤ (O.account out.new).faults }
{
    match read_image_file(alloc, 0, image, files) {
        Ok(bytes) => run_bytes(alloc, bytes.as_slice(), steps, input, out),
        Err(cause) => cause,
    }
}
