//! The top call.

ghost use Rattle.std.specs.Prelude.{◌≡◌, ◌≤◌, Some, map, string_bytes};
ghost use Rattle.trc_words.specs.Asked.{asked};
ghost use Rattle.word_requests.specs.Fitting.{Fits};
ghost use Rattle.word_requests.specs.Requests.{plain};
ghost use Rattle.trc_answers.specs.Causes.{status_of, line_of, TookLine};
ghost use Rattle.trc_answers.specs.Verdict.{world};
ghost use Rattle.trc_answers.specs.Answers.{Answers, devices};
ghost use Rattle.trc_cli.specs.Commands.{ComesTo, FaultsOnlyInExec, FilesUse, InputUse};
ghost use Rattle.trc_cli.specs.Did.{Did};
ghost use Rattle.trc_cli.specs.Lines.{IsTold};

use crate::commands::{first_module, names_of, perform};
use object_commands::Scaffolds;
use outside::{Files, Gate, Sink, Source};
use std::alloc::AllocGlobal;
use std::sync::Wait;
use std::thread::Threads;
use trc_answers::{Cause, Ending, Outcome, report, status};
use trc_words::{Request, WordsFault, read_words};

/// Tells how a command ended on the error sink, whose fault changes nothing, and gives the cause with its status. The names are
/// those of the files that the command reads, the modules' at this number and behind it.
pub(crate) fn finish<E: Sink>(err: &mut E, ending: Ending, names: &[&str], first: u32) -> Outcome
    ensures cause { result.cause ≡ ending.cause }
    ensures status { result.status ≡ status_of ending.cause }
    ensures told { TookLine (E.account err.old) (E.account err.new) (line_of (map (λ name. name.now) names.now) first ending.place ending.cause) }
    ensures rises { (E.account err.old).faults ≤ (E.account err.new).faults }
{
    let _ = report(err, ending.cause, ending.place, names, first);
    Outcome {
        status: status(ending.cause),
        cause: ending.cause,
    }
}

/// Does what a command asks for, and tells how it ended.
fn perform_and_tell<
    R: Threads + Wait + AllocGlobal + Sync,
    F: Files,
    I: Source,
    O: Sink,
    E: Sink,
    G: Gate,
>(
    rt: &R,
    request: &Request<'_>,
    files: &mut F,
    input: &mut I,
    out: &mut O,
    err: &mut E,
    gate: &G,
    scaffolds: Scaffolds,
) -> Outcome
    requires { Fits (plain request.now) }
    ensures did { Did (Some (plain request.now))
        (devices (F.held files.old) (F.faults files.old) (I.left input.old) (I.faults input.old) (O.account out.old))
        (devices (F.held files.new) (F.faults files.new) (I.left input.new) (I.faults input.new) (O.account out.new))
        (E.account err.old) (E.account err.new) result }
    ensures files_rise { F.faults files.old ≤ F.faults files.new }
    ensures input_rises { I.faults input.old ≤ I.faults input.new }
    ensures out_rises { (O.account out.old).faults ≤ (O.account out.new).faults }
    ensures err_rises { (E.account err.old).faults ≤ (E.account err.new).faults }
{
    let Ok(names) = names_of(rt.alloc(), request) else {
        return finish(err, Ending::of(Cause::Memory), &[], 0);
    };
    let ending = perform(rt, request, files, input, out, gate, scaffolds);
    finish(err, ending, names.as_slice(), first_module(request))
}

/// Does what the words ask for, those behind the program's name, with what images were made on let go or left standing.
pub(crate) fn call<
    R: Threads + Wait + AllocGlobal + Sync,
    F: Files,
    I: Source,
    O: Sink,
    E: Sink,
    G: Gate,
>(
    rt: &R,
    words: &[String],
    files: &mut F,
    input: &mut I,
    out: &mut O,
    err: &mut E,
    gate: &G,
    scaffolds: Scaffolds,
) -> Outcome
    ensures did { Did (asked (map string_bytes words.now))
        (devices (F.held files.old) (F.faults files.old) (I.left input.old) (I.faults input.old) (O.account out.old))
        (devices (F.held files.new) (F.faults files.new) (I.left input.new) (I.faults input.new) (O.account out.new))
        (E.account err.old) (E.account err.new) result }
    ensures files_rise { F.faults files.old ≤ F.faults files.new }
    ensures input_rises { I.faults input.old ≤ I.faults input.new }
    ensures out_rises { (O.account out.old).faults ≤ (O.account out.new).faults }
    ensures err_rises { (E.account err.old).faults ≤ (E.account err.new).faults }
{
    match read_words(rt.alloc(), words) {
        Ok(request) => perform_and_tell(rt, &request, files, input, out, err, gate, scaffolds),
        Err(WordsFault::Usage) => finish(err, Ending::of(Cause::Usage), &[], 0),
        Err(WordsFault::Memory) => finish(err, Ending::of(Cause::Memory), &[], 0),
    }
}

/// Does what the words ask for, those behind the program's name:
///
/// - `run FILE {FILE}` compiles the modules and runs their image on `out`;
/// - `build OUT FILE {FILE}` compiles the modules and writes the image to OUT; with `--from IMAGE` only where the file IMAGE
///   holds the same image in version 1; with `--notes NAME` it then writes the notes of the results behind the image to NAME;
/// - `elf OUT FILE {FILE}` compiles the modules and writes the native program of their image to OUT;
/// - `traces FILE {FILE}` tells the traces of the modules' procedures;
/// - `exec IMAGE` runs the image that the file holds;
/// - `bulk SEED SIZE` makes a module of SIZE procedures, compiles and runs it, and tells what came of it;
/// - `audit OUT NOTES FILE {FILE}` takes results for the modules' traces from the notes that the file NOTES holds, and where they
///   are sound writes the image that they make to OUT, and prints `sound`;
/// - `object OUT FILE {FILE}` compiles the modules as far as the registers of the last one, and writes that module's object to OUT;
/// - `link OUT OBJECT {OBJECT}` takes modules and results for their traces from the objects that the files hold, and where the results
///   are sound writes the image that they make to OUT;
/// - `mean FILE {FILE}` does what the modules mean, turn by turn;
/// - `both FILE {FILE}` tells how what the modules mean ends, and how the run of their image ends on the same input;
/// - `compare FILE {FILE}` compiles the modules by each policy, with both builders and with fewer registers, runs each image on the same
///   input, and prints a table of what each takes;
/// - `show OUT FILE {FILE}` compiles the modules, and writes a page to OUT that shows how registers are given; with `--against NAME` beside
///   that policy;
/// - `batch LIST` answers the jobs of the list that the file holds, each as `run` does on empty input, and prints the replies;
/// - `check FILE {FILE}` judges the modules, and says nothing where all is well; with `--format json` a rule that is broken is told by a
///   line of JSON on `out`, too;
/// - `explain` lists the numbers that are told, `explain NUMBER` explains one, and `explain usage` the commands;
/// - `help` tells the commands;
///
/// with the options `--policy`, `--traces`, `--regs`, `--jobs`, `--steps` and `--turns`. One line is written to `err` for each cause but Done. All
/// memory that was taken is let go.
pub fn trc<R: Threads + Wait + AllocGlobal + Sync, F: Files, I: Source, O: Sink, E: Sink, G: Gate>(
    rt: &R,
    words: &[String],
    files: &mut F,
    input: &mut I,
    out: &mut O,
    err: &mut E,
    gate: &G,
) -> Outcome
    // a cause that the words come to, with all done; a fault of a device, which is named; or want of memory
    ensures answers { Answers (λ left. ComesTo (world (F.held files.old) left) (asked (map string_bytes words.now)))
        (devices (F.held files.old) (F.faults files.old) (I.left input.old) (I.faults input.old) (O.account out.old))
        (devices (F.held files.new) (F.faults files.new) (I.left input.new) (I.faults input.new) (O.account out.new)) result.cause }

    // which devices a command leaves alone, and which causes are never its own
    ensures unread { InputUse (asked (map string_bytes words.now))
        (devices (F.held files.old) (F.faults files.old) (I.left input.old) (I.faults input.old) (O.account out.old))
        (devices (F.held files.new) (F.faults files.new) (I.left input.new) (I.faults input.new) (O.account out.new)) }
    ensures untouched { FilesUse (asked (map string_bytes words.now))
        (devices (F.held files.old) (F.faults files.old) (I.left input.old) (I.faults input.old) (O.account out.old))
        (devices (F.held files.new) (F.faults files.new) (I.left input.new) (I.faults input.new) (O.account out.new)) }
    ensures no_fault { FaultsOnlyInExec (asked (map string_bytes words.now)) result.cause }

    // the status and the line of the cause
    ensures status { result.status ≡ status_of result.cause }
    ensures told { IsTold (F.held files.old) (asked (map string_bytes words.now)) (E.account err.old) (E.account err.new) result.cause }
    ensures files_rise { F.faults files.old ≤ F.faults files.new }
    ensures input_rises { I.faults input.old ≤ I.faults input.new }
    ensures out_rises { (O.account out.old).faults ≤ (O.account out.new).faults }
    ensures err_rises { (E.account err.old).faults ≤ (E.account err.new).faults }
{
    call(rt, words, files, input, out, err, gate, Scaffolds::LetGo)
}
