//! The commands.

ghost use Rattle.std.specs.Prelude.{◌≡◌, ◌≤◌, ◌∷◌, ◌++◌, Some, map, option_map, option_to_list, IfOk};
ghost use Rattle.word_requests.specs.Fitting.{Fits};
ghost use Rattle.word_requests.specs.Requests.{plain};
ghost use Rattle.trc_answers.specs.Answers.{Answers, devices};
ghost use Rattle.trc_answers.specs.Causes.{IsPlaced};
ghost use Rattle.trc_cli.specs.Commands.{FilesUse, InputUse, IsTextOf, RequestComesTo, first_module, names_read};
ghost use Rattle.trc_answers.specs.Verdict.{world};

use crate::building::{build_asked, elf};
use crate::bulk::bulk;
use crate::explaining::explain;
use crate::running::run;
use crate::tracing::traces;
use batch_jobs::batch;
use compare_commands::{both, compare, mean};
use module_check::check;
use object_commands::{Scaffolds, audit, link, object};
use outside::{Files, Gate, Sink, Source};
use show_commands::show;
use std::alloc::{AllocError, AllocGlobal, Global};
use std::sync::Wait;
use std::thread::Threads;
use trc_answers::{Ending, exec, print};
use trc_words::Request;

/// The lines of `help`.
const HELP: &[u8] =
    b"trc run|build|elf|traces|exec|bulk|audit|object|link|mean|both|batch|help\n--policy --traces --regs --jobs --steps --from --notes --turns\n";

/// Some names, and one more where there is one.
fn names_with<'a>(
    alloc: Global,
    names: &[&'a str],
    last: Option<&'a str>,
) -> Result<Vec<&'a str>, AllocError>
    ensures { IfOk result (λ all. map (λ name. name.now) all.items ≡ map (λ name. name.now) names.now ++ option_to_list (option_map (λ name. name.now) last.entry)) }
{
    let mut all = Vec::from_slice(alloc, names)?;
    if let Some(name) = last {
        all.extend_from_slice(&[name])?;
    }
    Ok(all)
}

/// A name, and others behind it.
fn names_behind<'a>(
    alloc: Global,
    first: &'a str,
    names: &[&'a str],
) -> Result<Vec<&'a str>, AllocError>
    ensures { IfOk result (λ all. map (λ name. name.now) all.items ≡ first.entry.now ∷ map (λ name. name.now) names.now) }
{
    let mut all = Vec::from_slice(alloc, &[first])?;
    all.extend_from_slice(names)?;
    Ok(all)
}

/// The number of the first module's name among these.
pub(crate) fn first_module(request: &Request<'_>) -> u32
    ensures { result ≡ first_module (Some (plain request.now)) }
{
    match request {
        Request::Audit { .. } => 1,
        _ => 0,
    }
}

/// The names of the files that a command reads, in the order of reading.
pub(crate) fn names_of<'a>(alloc: Global, request: &Request<'a>) -> Result<Vec<&'a str>, AllocError>
    ensures { IfOk result (λ names. map (λ name. name.now) names.items ≡ names_read (Some (plain request.now))) }
{
    match request {
        Request::Run { files, .. } => Vec::from_slice(alloc, files.as_slice()),
        Request::Build { files, from, .. } => names_with(alloc, files.as_slice(), *from),
        Request::Elf { files, .. } => Vec::from_slice(alloc, files.as_slice()),
        Request::Traces { files, .. } => Vec::from_slice(alloc, files.as_slice()),
        Request::Exec { image, .. } => Vec::from_slice(alloc, &[*image]),
        Request::Bulk { .. } => Ok(Vec::new(alloc)),
        Request::Audit { notes, files, .. } => names_behind(alloc, notes, files.as_slice()),
        Request::Object { files, .. } => Vec::from_slice(alloc, files.as_slice()),
        Request::Link { objects, .. } => Vec::from_slice(alloc, objects.as_slice()),
        Request::Mean { files, .. } => Vec::from_slice(alloc, files.as_slice()),
        Request::Both { files, .. } => Vec::from_slice(alloc, files.as_slice()),
        Request::Batch { list, .. } => Vec::from_slice(alloc, &[*list]),
        Request::Check { files, .. } => Vec::from_slice(alloc, files.as_slice()),
        Request::Explain { .. } => Ok(Vec::new(alloc)),
        Request::Compare { files, .. } => Vec::from_slice(alloc, files.as_slice()),
        Request::Show { files, .. } => Vec::from_slice(alloc, files.as_slice()),
        Request::Help => Ok(Vec::new(alloc)),
    }
}

/// Does what a command asks for.
pub(crate) fn perform<
    R: Threads + Wait + AllocGlobal + Sync,
    F: Files,
    I: Source,
    O: Sink,
    G: Gate,
>(
    rt: &R,
    request: &Request<'_>,
    files: &mut F,
    input: &mut I,
    out: &mut O,
    gate: &G,
    scaffolds: Scaffolds,
) -> Ending
    requires { Fits (plain request.now) }
    ensures answers { Answers (λ left. RequestComesTo (world (F.held files.old) left) (plain request.now))
        (devices (F.held files.old) (F.faults files.old) (I.left input.old) (I.faults input.old) (O.account out.old))
        (devices (F.held files.new) (F.faults files.new) (I.left input.new) (I.faults input.new) (O.account out.new)) result.cause }
    ensures unread { InputUse (Some (plain request.now))
        (devices (F.held files.old) (F.faults files.old) (I.left input.old) (I.faults input.old) (O.account out.old))
        (devices (F.held files.new) (F.faults files.new) (I.left input.new) (I.faults input.new) (O.account out.new)) }
    ensures untouched { FilesUse (Some (plain request.now))
        (devices (F.held files.old) (F.faults files.old) (I.left input.old) (I.faults input.old) (O.account out.old))
        (devices (F.held files.new) (F.faults files.new) (I.left input.new) (I.faults input.new) (O.account out.new)) }
    ensures placed { IsPlaced (IsTextOf (F.held files.old) (Some (plain request.now))) result.cause result.place }
    ensures files_rise { F.faults files.old ≤ F.faults files.new }
    ensures input_rises { I.faults input.old ≤ I.faults input.new }
    ensures out_rises { (O.account out.old).faults ≤ (O.account out.new).faults }
{
    match request {
        Request::Run {
            files: names,
            choice,
            steps,
        } => run(
            rt,
            names.as_slice(),
            choice,
            *steps,
            files,
            input,
            out,
            gate,
            scaffolds,
        ),
        Request::Build {
            out: name,
            files: names,
            choice,
            from,
            notes,
        } => build_asked(
            rt,
            name,
            names.as_slice(),
            *from,
            *notes,
            choice,
            files,
            gate,
            scaffolds,
        ),
        Request::Elf {
            out: name,
            files: names,
            choice,
        } => elf(rt, name, names.as_slice(), choice, files, gate, scaffolds),
        Request::Exec { image, steps } => {
            Ending::of(exec(rt.alloc(), image, *steps, files, input, out))
        }
        Request::Traces {
            files: names,
            choice,
        } => traces(rt.alloc(), names.as_slice(), choice, files, out),
        Request::Bulk {
            seed,
            size,
            choice,
            steps,
        } => bulk(rt, *seed, *size, choice, *steps, out, gate, scaffolds),
        Request::Audit {
            out: name,
            notes,
            files: names,
            builder,
            regs,
        } => audit(
            rt.alloc(),
            name,
            notes,
            names.as_slice(),
            *builder,
            *regs,
            files,
            out,
        ),
        Request::Object {
            out: name,
            files: names,
            choice,
        } => object(rt, name, names.as_slice(), choice, files, gate),
        Request::Link { out: name, objects } => {
            link(rt.alloc(), name, objects.as_slice(), files)
        }
        Request::Mean {
            files: names,
            turns,
        } => mean(rt.alloc(), names.as_slice(), *turns, files, input, out),
        Request::Both {
            files: names,
            choice,
            steps,
            turns,
        } => both(
            rt,
            names.as_slice(),
            choice,
            *steps,
            *turns,
            files,
            input,
            out,
            gate,
        ),
        Request::Batch {
            list,
            choice,
            steps,
        } => Ending::of(batch(rt, list, choice, *steps, files, out, gate)),
        Request::Check {
            files: names,
            format,
        } => check(rt.alloc(), names.as_slice(), *format, files, out),
        Request::Explain { topic } => Ending::of(explain(rt.alloc(), *topic, out)),
        Request::Compare {
            files: names,
            jobs,
            steps,
        } => compare(rt, names.as_slice(), *jobs, *steps, files, input, out, gate),
        Request::Show {
            out: name,
            files: names,
            choice,
            against,
        } => show(rt, name, names.as_slice(), choice, *against, files, gate),
        Request::Help => Ending::of(print(out, HELP)),
    }
}
