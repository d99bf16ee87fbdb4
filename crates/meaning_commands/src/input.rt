//! The input is read.

ghost use Rattle.std.specs.Prelude.{◌≤◌, IfOk, IfErr};
ghost use Rattle.a64_memory.specs.Memory.{AreBytes};
ghost use Rattle.trc_answers.specs.Causes.{IsPlain};
ghost use Rattle.meaning_commands.specs.Inputs.{IsGiven, IsNotGiven, input_told};

use outside::{InFault, Source, read_all};
use std::alloc::Global;
use trc_answers::{Cause, Device};

/// The most bytes that the input may have.
const MOST_INPUT: usize = 1_048_576;

/// The numbers of a list of bytes are bytes.
fn are_bytes(bytes: &[u8])
    ensures { AreBytes bytes.now }
{}

/// The whole input where it is wanted, and else nothing, with the input left alone.
pub fn read_input<I: Source>(alloc: Global, wanted: bool, input: &mut I) -> Result<Vec<u8>, Cause>
    ensures given { IfOk result (λ bytes. IsGiven wanted (input_told (I.left input.old) (I.faults input.old))
        (input_told (I.left input.new) (I.faults input.new)) bytes.items) }
    ensures fault { IfErr result (IsNotGiven wanted (input_told (I.left input.old) (I.faults input.old)) (input_told (I.left input.new) (I.faults input.new))) }
    ensures plain { IfErr result IsPlain }
    ensures rises { I.faults input.old ≤ I.faults input.new }
{
    if !wanted {
        return Ok(Vec::new(alloc));
    }
    match read_all(alloc, input, MOST_INPUT) {
        Ok(bytes) => {
            are_bytes(bytes.as_slice());
            Ok(bytes)
        }
        Err(InFault::TooLong) => Err(Cause::InputTooLong),
        Err(InFault::ReadFault) => Err(Cause::ReadFault {
            device: Device::Input,
        }),
        Err(InFault::Memory) => Err(Cause::Memory),
    }
}
