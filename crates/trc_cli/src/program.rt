//! The program, but for the host's devices.

ghost use Rattle.std.specs.Prelude.{◌≤◌};
ghost use Rattle.trc_answers.specs.Answers.{devices};
ghost use Rattle.trc_cli.specs.Did.{DidSome};

use crate::top::{call, finish};
use object_commands::Scaffolds;
use outside::{Files, Memory, OpenGate, Sink, Source};
use std::alloc::AllocGlobal;
use std::env;
use std::io::ErrorKind;
use std::rt::Env;
use std::sync::Wait;
use std::thread::Threads;
use trc_answers::{Cause, Ending};

/// The words behind the program's name; no words where one of them isn't UTF-8, which no word of a command is.
fn words_of<R: Env + AllocGlobal>(rt: &R) -> Result<Vec<String>, Memory> {
    match env::args(rt) {
        Ok(arguments) => Ok(arguments.skip(1).collect(rt.alloc())?),
        Err(error) => match error.kind() {
            ErrorKind::OutOfMemory => Err(Memory),
            _ => Ok(Vec::new(rt.alloc())),
        },
    }
}

/// Runs the command of the program's words over these devices, and gives the status with which the program ends. What images were
/// made on is left standing, since the process ends. What the words are no clause says: the environment tells them.
pub fn run_program<
    R: Threads + Wait + Env + AllocGlobal + Sync,
    F: Files,
    I: Source,
    O: Sink,
    E: Sink,
>(rt: &R, files: &mut F, input: &mut I, out: &mut O, err: &mut E) -> u8
    ensures did { DidSome
        (devices (F.held files.old) (F.faults files.old) (I.left input.old) (I.faults input.old) (O.account out.old))
        (devices (F.held files.new) (F.faults files.new) (I.left input.new) (I.faults input.new) (O.account out.new))
        (E.account err.old) (E.account err.new) result }
    ensures files_rise { F.faults files.old ≤ F.faults files.new }
    ensures input_rises { I.faults input.old ≤ I.faults input.new }
    ensures out_rises { (O.account out.old).faults ≤ (O.account out.new).faults }
    ensures err_rises { (E.account err.old).faults ≤ (E.account err.new).faults }
{
    match words_of(rt) {
        Ok(words) => {
            let words = words.as_slice();
            let left = Scaffolds::LeftStanding;
            call(rt, words, files, input, out, err, &OpenGate, left).status
        }
        Err(Memory) => finish(err, Ending::of(Cause::Memory), &[], 0).status,
    }
}
