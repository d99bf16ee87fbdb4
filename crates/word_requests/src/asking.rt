//! From a command's matches to what they ask for.

ghost use Rattle.clap.specs.Words.{found_of, rows_of};
ghost use Rattle.option_values.specs.Values.{files_in, names_in, texts};
ghost use Rattle.word_requests.specs.Asked.{run_asked, build_asked, elf_asked, exec_asked, traces_asked, bulk_asked, audit_asked, object_asked, link_asked, mean_asked, both_asked, batch_asked, check_asked, explain_asked, compare_asked, show_asked};
ghost use Rattle.word_requests.specs.Requests.{Asks, Shows};

use crate::request::Request;
use clap::ArgMatches;
use command_words::WordsFault;
use option_values::{
    against, choice, format, jobs, notes_name, regs, seed, shown_choice, size, some_values, steps,
    topic, traces as builder, traces_choice, turns, value,
};
use std::alloc::Global;

/// The names that an argument has, of which there is one at least.
fn names<'a>(
    alloc: Global,
    matches: &ArgMatches<'a>,
    name: &str,
) -> Result<Vec<&'a str>, WordsFault>
    ensures { Shows (λ names. texts names.items) (names_in name.now (rows_of (found_of matches.now))) result }
{
    let values = some_values(matches, name).ok_or(WordsFault::Usage)?;
    let mut names = Vec::new(alloc);
    names.extend_from_slice(values)?;
    Ok(names)
}

/// The names of the files, of which there is one at least.
fn files<'a>(alloc: Global, matches: &ArgMatches<'a>) -> Result<Vec<&'a str>, WordsFault>
    ensures { Shows (λ files. texts files.items) (files_in (rows_of (found_of matches.now))) result }
{
    names(alloc, matches, "FILE")
}

/// What the matches of `run` ask for.
pub fn run_request<'a>(alloc: Global, matches: &ArgMatches<'a>) -> Result<Request<'a>, WordsFault>
    ensures { Asks (run_asked (rows_of (found_of matches.now))) result }
{
    let files = files(alloc, matches)?;
    let choice = choice(matches).ok_or(WordsFault::Usage)?;
    let steps = steps(matches).ok_or(WordsFault::Usage)?;
    Ok(Request::Run {
        files,
        choice,
        steps,
    })
}

/// What the matches of `build` ask for.
pub fn build_request<'a>(alloc: Global, matches: &ArgMatches<'a>) -> Result<Request<'a>, WordsFault>
    ensures { Asks (build_asked (rows_of (found_of matches.now))) result }
{
    let out = value(matches, "OUT").ok_or(WordsFault::Usage)?;
    let files = files(alloc, matches)?;
    let choice = choice(matches).ok_or(WordsFault::Usage)?;
    let notes = notes_name(matches, out).ok_or(WordsFault::Usage)?;
    Ok(Request::Build {
        out,
        files,
        choice,
        from: value(matches, "from"),
        notes,
    })
}

/// What the matches of `elf` ask for.
pub fn elf_request<'a>(alloc: Global, matches: &ArgMatches<'a>) -> Result<Request<'a>, WordsFault>
    ensures { Asks (elf_asked (rows_of (found_of matches.now))) result }
{
    let out = value(matches, "OUT").ok_or(WordsFault::Usage)?;
    let files = files(alloc, matches)?;
    let choice = choice(matches).ok_or(WordsFault::Usage)?;
    Ok(Request::Elf { out, files, choice })
}

/// What the matches of `exec` ask for.
pub fn exec_request<'a>(matches: &ArgMatches<'a>) -> Result<Request<'a>, WordsFault>
    ensures { Asks (exec_asked (rows_of (found_of matches.now))) result }
{
    let image = value(matches, "IMAGE").ok_or(WordsFault::Usage)?;
    let steps = steps(matches).ok_or(WordsFault::Usage)?;
    Ok(Request::Exec { image, steps })
}

/// What the matches of `traces` ask for.
pub fn traces_request<'a>(
    alloc: Global,
    matches: &ArgMatches<'a>,
) -> Result<Request<'a>, WordsFault>
    ensures { Asks (traces_asked (rows_of (found_of matches.now))) result }
{
    let files = files(alloc, matches)?;
    let choice = traces_choice(matches).ok_or(WordsFault::Usage)?;
    Ok(Request::Traces { files, choice })
}

/// What the matches of `bulk` ask for.
pub fn bulk_request<'a>(matches: &ArgMatches<'a>) -> Result<Request<'a>, WordsFault>
    ensures { Asks (bulk_asked (rows_of (found_of matches.now))) result }
{
    let seed = seed(matches).ok_or(WordsFault::Usage)?;
    let size = size(matches).ok_or(WordsFault::Usage)?;
    let choice = choice(matches).ok_or(WordsFault::Usage)?;
    let steps = steps(matches).ok_or(WordsFault::Usage)?;
    Ok(Request::Bulk {
        seed,
        size,
        choice,
        steps,
    })
}

/// What the matches of `audit` ask for.
pub fn audit_request<'a>(alloc: Global, matches: &ArgMatches<'a>) -> Result<Request<'a>, WordsFault>
    ensures { Asks (audit_asked (rows_of (found_of matches.now))) result }
{
    let out = value(matches, "OUT").ok_or(WordsFault::Usage)?;
    let notes = value(matches, "NOTES").ok_or(WordsFault::Usage)?;
    let files = files(alloc, matches)?;
    let builder = builder(matches).ok_or(WordsFault::Usage)?;
    let regs = regs(matches).ok_or(WordsFault::Usage)?;
    Ok(Request::Audit {
        out,
        notes,
        files,
        builder,
        regs,
    })
}

/// What the matches of `object` ask for.
pub fn object_request<'a>(
    alloc: Global,
    matches: &ArgMatches<'a>,
) -> Result<Request<'a>, WordsFault>
    ensures { Asks (object_asked (rows_of (found_of matches.now))) result }
{
    let out = value(matches, "OUT").ok_or(WordsFault::Usage)?;
    let files = files(alloc, matches)?;
    let choice = choice(matches).ok_or(WordsFault::Usage)?;
    Ok(Request::Object { out, files, choice })
}

/// What the matches of `link` ask for.
pub fn link_request<'a>(alloc: Global, matches: &ArgMatches<'a>) -> Result<Request<'a>, WordsFault>
    ensures { Asks (link_asked (rows_of (found_of matches.now))) result }
{
    let out = value(matches, "OUT").ok_or(WordsFault::Usage)?;
    let objects = names(alloc, matches, "OBJECT")?;
    Ok(Request::Link { out, objects })
}

/// What the matches of `mean` ask for.
pub fn mean_request<'a>(alloc: Global, matches: &ArgMatches<'a>) -> Result<Request<'a>, WordsFault>
    ensures { Asks (mean_asked (rows_of (found_of matches.now))) result }
{
    let files = files(alloc, matches)?;
    let turns = turns(matches).ok_or(WordsFault::Usage)?;
    Ok(Request::Mean { files, turns })
}

/// What the matches of `both` ask for.
pub fn both_request<'a>(alloc: Global, matches: &ArgMatches<'a>) -> Result<Request<'a>, WordsFault>
    ensures { Asks (both_asked (rows_of (found_of matches.now))) result }
{
    let files = files(alloc, matches)?;
    let choice = choice(matches).ok_or(WordsFault::Usage)?;
    let steps = steps(matches).ok_or(WordsFault::Usage)?;
    let turns = turns(matches).ok_or(WordsFault::Usage)?;
    Ok(Request::Both {
        files,
        choice,
        steps,
        turns,
    })
}

/// What the matches of `batch` ask for.
pub fn batch_request<'a>(matches: &ArgMatches<'a>) -> Result<Request<'a>, WordsFault>
    ensures { Asks (batch_asked (rows_of (found_of matches.now))) result }
{
    let list = value(matches, "LIST").ok_or(WordsFault::Usage)?;
    let choice = choice(matches).ok_or(WordsFault::Usage)?;
    let steps = steps(matches).ok_or(WordsFault::Usage)?;
    Ok(Request::Batch {
        list,
        choice,
        steps,
    })
}

/// What the matches of `check` ask for.
pub fn check_request<'a>(alloc: Global, matches: &ArgMatches<'a>) -> Result<Request<'a>, WordsFault>
    ensures { Asks (check_asked (rows_of (found_of matches.now))) result }
{
    let files = files(alloc, matches)?;
    let format = format(matches).ok_or(WordsFault::Usage)?;
    Ok(Request::Check { files, format })
}

/// What the matches of `explain` ask for.
pub fn explain_request<'a>(matches: &ArgMatches<'a>) -> Result<Request<'a>, WordsFault>
    ensures { Asks (explain_asked (rows_of (found_of matches.now))) result }
{
    let topic = topic(matches).ok_or(WordsFault::Usage)?;
    Ok(Request::Explain { topic })
}

/// What the matches of `compare` ask for.
pub fn compare_request<'a>(
    alloc: Global,
    matches: &ArgMatches<'a>,
) -> Result<Request<'a>, WordsFault>
    ensures { Asks (compare_asked (rows_of (found_of matches.now))) result }
{
    let files = files(alloc, matches)?;
    let jobs = jobs(matches).ok_or(WordsFault::Usage)?;
    let steps = steps(matches).ok_or(WordsFault::Usage)?;
    Ok(Request::Compare { files, jobs, steps })
}

/// What the matches of `show` ask for.
pub fn show_request<'a>(alloc: Global, matches: &ArgMatches<'a>) -> Result<Request<'a>, WordsFault>
    ensures { Asks (show_asked (rows_of (found_of matches.now))) result }
{
    let out = value(matches, "OUT").ok_or(WordsFault::Usage)?;
    let files = files(alloc, matches)?;
    let choice = shown_choice(matches).ok_or(WordsFault::Usage)?;
    let against = against(matches).ok_or(WordsFault::Usage)?;
    Ok(Request::Show {
        out,
        files,
        choice,
        against,
    })
}
