//! The values of options, and their defaults, and the numbers of a made module.

ghost use Rattle.std.specs.Prelude.{◌≡◌};
ghost use Rattle.clap.specs.Words.{found_of, rows_of};
ghost use Rattle.option_values.specs.Values.{named_in};
ghost use Rattle.option_values.specs.Options.{policies, builders, policy_in, against_in, traces_in, regs_in, jobs_in, steps_in, turns_in, traces_choice_in, shown_choice_in, choice_in, formats, format_in, paged, topic_named, topic_in, seed_in, size_in};

use crate::numbers::number_between;
use crate::values::value;
use alloc_choice::{Builder, Choice, Policy};
use clap::ArgMatches;
use explanations::{Format, Topic, has_page};

/// The policy of this name.
fn policy_named(name: &str) -> Option<Policy>
    ensures { result ≡ named_in policies name.now }
{
    match name {
        "plain" => Some(Policy::Plain),
        "linear" => Some(Policy::Linear),
        "bottomup" => Some(Policy::BottomUp),
        "mixed" => Some(Policy::Mixed),
        _ => None,
    }
}

/// How traces are cut, by its name.
fn builder_named(name: &str) -> Option<Builder>
    ensures { result ≡ named_in builders name.now }
{
    match name {
        "uni" => Some(Builder::Uni),
        "bi" => Some(Builder::Bi),
        _ => None,
    }
}

/// The policy that the words choose: linear scan where they don't say.
fn policy(matches: &ArgMatches<'_>) -> Option<Policy>
    ensures { result ≡ policy_in (rows_of (found_of matches.now)) }
{
    match value(matches, "policy") {
        Some(name) => policy_named(name),
        None => Some(Policy::Linear),
    }
}

/// The policy beside which another is shown, if there is one.
pub fn against(matches: &ArgMatches<'_>) -> Option<Option<Policy>>
    ensures { result ≡ against_in (rows_of (found_of matches.now)) }
{
    match value(matches, "against") {
        Some(name) => Some(Some(policy_named(name)?)),
        None => Some(None),
    }
}

/// How traces are cut: in both directions where the words don't say.
pub fn traces(matches: &ArgMatches<'_>) -> Option<Builder>
    ensures { result ≡ traces_in (rows_of (found_of matches.now)) }
{
    match value(matches, "traces") {
        Some(name) => builder_named(name),
        None => Some(Builder::Bi),
    }
}

/// The number of registers: 16 where the words don't say.
pub fn regs(matches: &ArgMatches<'_>) -> Option<u8>
    ensures { result ≡ regs_in (rows_of (found_of matches.now)) }
{
    match value(matches, "regs") {
        Some(text) => Some(number_between(4, 16, text)? as u8),
        None => Some(16),
    }
}

/// The number of workers: 4 where the words don't say.
pub fn jobs(matches: &ArgMatches<'_>) -> Option<u32>
    ensures { result ≡ jobs_in (rows_of (found_of matches.now)) }
{
    match value(matches, "jobs") {
        Some(text) => Some(number_between(1, 64, text)? as u32),
        None => Some(4),
    }
}

/// The steps of a run: 1,000,000,000 where the words don't say.
pub fn steps(matches: &ArgMatches<'_>) -> Option<u64>
    ensures { result ≡ steps_in (rows_of (found_of matches.now)) }
{
    match value(matches, "steps") {
        Some(text) => number_between(0, 1_000_000_000_000_000, text),
        None => Some(1_000_000_000),
    }
}

/// The turns of a meaning: 100,000,000 where the words don't say.
pub fn turns(matches: &ArgMatches<'_>) -> Option<u64>
    ensures { result ≡ turns_in (rows_of (found_of matches.now)) }
{
    match value(matches, "turns") {
        Some(text) => number_between(0, 1_000_000_000_000_000, text),
        None => Some(100_000_000),
    }
}

/// How traces are cut and given places, with 16 registers and 4 workers.
pub fn traces_choice(matches: &ArgMatches<'_>) -> Option<Choice>
    ensures { result ≡ traces_choice_in (rows_of (found_of matches.now)) }
{
    let policy = policy(matches)?;
    let builder = traces(matches)?;
    Some(Choice {
        policy,
        builder,
        regs: 16,
        jobs: 4,
    })
}

/// How traces are cut and given places that are shown, with 4 workers.
pub fn shown_choice(matches: &ArgMatches<'_>) -> Option<Choice>
    ensures { result ≡ shown_choice_in (rows_of (found_of matches.now)) }
{
    let policy = policy(matches)?;
    let builder = traces(matches)?;
    let regs = regs(matches)?;
    Some(Choice {
        policy,
        builder,
        regs,
        jobs: 4,
    })
}

/// What the options of compiling choose.
pub fn choice(matches: &ArgMatches<'_>) -> Option<Choice>
    ensures { result ≡ choice_in (rows_of (found_of matches.now)) }
{
    let policy = policy(matches)?;
    let builder = traces(matches)?;
    let regs = regs(matches)?;
    let jobs = jobs(matches)?;
    Some(Choice {
        policy,
        builder,
        regs,
        jobs,
    })
}

/// The format of this name.
fn format_named(name: &str) -> Option<Format>
    ensures { result ≡ named_in formats name.now }
{
    match name {
        "text" => Some(Format::Text),
        "json" => Some(Format::Json),
        _ => None,
    }
}

/// How `check` tells that a rule is broken: by a line for people where the words don't say.
pub fn format(matches: &ArgMatches<'_>) -> Option<Format>
    ensures { result ≡ format_in (rows_of (found_of matches.now)) }
{
    match value(matches, "format") {
        Some(name) => format_named(name),
        None => Some(Format::Text),
    }
}

/// A number, where it has a page.
fn paged(number: u8) -> Option<Topic>
    ensures { result ≡ paged number }
{
    if has_page(number) {
        Some(Topic::Number(number))
    } else {
        None
    }
}

/// What is explained under this name.
fn topic_named(name: &str) -> Option<Topic>
    ensures { result ≡ topic_named name.now }
{
    if name == "usage" {
        return Some(Topic::Usage);
    }
    paged(number_between(0, 255, name)? as u8)
}

/// What `explain` explains: which pages there are where the words don't say.
pub fn topic(matches: &ArgMatches<'_>) -> Option<Topic>
    ensures { result ≡ topic_in (rows_of (found_of matches.now)) }
{
    match value(matches, "TOPIC") {
        Some(name) => topic_named(name),
        None => Some(Topic::Pages),
    }
}

/// The seed of a made module.
pub fn seed(matches: &ArgMatches<'_>) -> Option<u64>
    ensures { result ≡ seed_in (rows_of (found_of matches.now)) }
{
    number_between(0, 9_223_372_036_854_775_807, value(matches, "SEED")?)
}

/// The number of procedures of a made module.
pub fn size(matches: &ArgMatches<'_>) -> Option<u32>
    ensures { result ≡ size_in (rows_of (found_of matches.now)) }
{
    Some(number_between(1, 1_000, value(matches, "SIZE")?)? as u32)
}
