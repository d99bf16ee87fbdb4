//! What each command makes of words.
#![tactic(auto, unfolding(crate::specs::Commands::with_argument, crate::specs::Commands::with_names, crate::specs::Commands::with_option))]

ghost use Rattle.std.specs.Prelude.{◌≡◌, map, string_bytes, true};
ghost use Rattle.clap.specs.Words.{app_of};
ghost use Rattle.clap.specs.Faults.{is_simple_and_free};
ghost use Rattle.command_words.specs.Commands.{run_command, build_command, elf_command, exec_command, traces_command, bulk_command, audit_command, object_command, link_command, mean_command, both_command, batch_command, check_command, explain_command, compare_command, show_command, help_command};
ghost use Rattle.command_words.specs.Taking.{IsTakenBy};

use crate::commands::{
    audit_command, batch_command, both_command, build_command, bulk_command, check_command,
    compare_command, elf_command, exec_command, explain_command, link_command, mean_command,
    object_command, run_command, show_command, traces_command,
};
use crate::fault::{WordsFault, fault};
use clap::{ArgMatches, Command};
use std::alloc::Global;

/// What a command makes of words, of which the first is its name.
fn matches<'a>(command: Command<'a>, words: &'a [String]) -> Result<ArgMatches<'a>, WordsFault>
    requires { is_simple_and_free (app_of command) ≡ true }
    ensures { IsTakenBy (app_of command.entry) (map string_bytes words.entry.now) result }
{
    match command.try_get_matches_from(words) {
        Ok(matches) => Ok(matches),
        Err(error) => Err(fault(&error)),
    }
}

/// What `run` makes of words.
pub fn run<'a>(alloc: Global, words: &'a [String]) -> Result<ArgMatches<'a>, WordsFault>
    ensures { IsTakenBy run_command (map string_bytes words.entry.now) result }
{
    let command = run_command(alloc)?;
    matches(command, words)
}

/// What `build` makes of words.
pub fn build<'a>(alloc: Global, words: &'a [String]) -> Result<ArgMatches<'a>, WordsFault>
    ensures { IsTakenBy build_command (map string_bytes words.entry.now) result }
{
    let command = build_command(alloc)?;
    matches(command, words)
}

/// What `elf` makes of words.
pub fn elf<'a>(alloc: Global, words: &'a [String]) -> Result<ArgMatches<'a>, WordsFault>
    ensures { IsTakenBy elf_command (map string_bytes words.entry.now) result }
{
    let command = elf_command(alloc)?;
    matches(command, words)
}

/// What `exec` makes of words.
pub fn exec<'a>(alloc: Global, words: &'a [String]) -> Result<ArgMatches<'a>, WordsFault>
    ensures { IsTakenBy exec_command (map string_bytes words.entry.now) result }
{
    let command = exec_command(alloc)?;
    matches(command, words)
}

/// What `traces` makes of words.
pub fn traces<'a>(alloc: Global, words: &'a [String]) -> Result<ArgMatches<'a>, WordsFault>
    ensures { IsTakenBy traces_command (map string_bytes words.entry.now) result }
{
    let command = traces_command(alloc)?;
    matches(command, words)
}

/// What `bulk` makes of words.
pub fn bulk<'a>(alloc: Global, words: &'a [String]) -> Result<ArgMatches<'a>, WordsFault>
    ensures { IsTakenBy bulk_command (map string_bytes words.entry.now) result }
{
    let command = bulk_command(alloc)?;
    matches(command, words)
}

/// What `audit` makes of words.
pub fn audit<'a>(alloc: Global, words: &'a [String]) -> Result<ArgMatches<'a>, WordsFault>
    ensures { IsTakenBy audit_command (map string_bytes words.entry.now) result }
{
    let command = audit_command(alloc)?;
    matches(command, words)
}

/// What `object` makes of words.
pub fn object<'a>(alloc: Global, words: &'a [String]) -> Result<ArgMatches<'a>, WordsFault>
    ensures { IsTakenBy object_command (map string_bytes words.entry.now) result }
{
    let command = object_command(alloc)?;
    matches(command, words)
}

/// What `link` makes of words.
pub fn link<'a>(alloc: Global, words: &'a [String]) -> Result<ArgMatches<'a>, WordsFault>
    ensures { IsTakenBy link_command (map string_bytes words.entry.now) result }
{
    let command = link_command(alloc)?;
    matches(command, words)
}

/// What `mean` makes of words.
pub fn mean<'a>(alloc: Global, words: &'a [String]) -> Result<ArgMatches<'a>, WordsFault>
    ensures { IsTakenBy mean_command (map string_bytes words.entry.now) result }
{
    let command = mean_command(alloc)?;
    matches(command, words)
}

/// What `both` makes of words.
pub fn both<'a>(alloc: Global, words: &'a [String]) -> Result<ArgMatches<'a>, WordsFault>
    ensures { IsTakenBy both_command (map string_bytes words.entry.now) result }
{
    let command = both_command(alloc)?;
    matches(command, words)
}

/// What `batch` makes of words.
pub fn batch<'a>(alloc: Global, words: &'a [String]) -> Result<ArgMatches<'a>, WordsFault>
    ensures { IsTakenBy batch_command (map string_bytes words.entry.now) result }
{
    let command = batch_command(alloc)?;
    matches(command, words)
}

/// What `check` makes of words.
pub fn check<'a>(alloc: Global, words: &'a [String]) -> Result<ArgMatches<'a>, WordsFault>
    ensures { IsTakenBy check_command (map string_bytes words.entry.now) result }
{
    let command = check_command(alloc)?;
    matches(command, words)
}

/// What `explain` makes of words.
pub fn explain<'a>(alloc: Global, words: &'a [String]) -> Result<ArgMatches<'a>, WordsFault>
    ensures { IsTakenBy explain_command (map string_bytes words.entry.now) result }
{
    let command = explain_command(alloc)?;
    matches(command, words)
}

/// What `compare` makes of words.
pub fn compare<'a>(alloc: Global, words: &'a [String]) -> Result<ArgMatches<'a>, WordsFault>
    ensures { IsTakenBy compare_command (map string_bytes words.entry.now) result }
{
    let command = compare_command(alloc)?;
    matches(command, words)
}

/// What `show` makes of words.
pub fn show<'a>(alloc: Global, words: &'a [String]) -> Result<ArgMatches<'a>, WordsFault>
    ensures { IsTakenBy show_command (map string_bytes words.entry.now) result }
{
    let command = show_command(alloc)?;
    matches(command, words)
}

/// What `help` makes of words.
pub fn help<'a>(alloc: Global, words: &'a [String]) -> Result<ArgMatches<'a>, WordsFault>
    ensures { IsTakenBy help_command (map string_bytes words.entry.now) result }
{
    let command = Command::new(alloc, "help");
    matches(command, words)
}
