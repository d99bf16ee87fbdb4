//! Arguments and options of commands.

ghost use Rattle.std.specs.Prelude.{◌≡◌, IfOk};
ghost use Rattle.clap.specs.Words.{app_of};
ghost use Rattle.command_words.specs.Commands.{with_argument, with_names, with_files, with_option, with_traces, with_choice, with_run};

use clap::{Arg, Command};
use std::alloc::{AllocError, Global};

/// The command, with an argument of one value that has to be there.
#[tactic(auto, unfolding(crate::specs::Commands::with_argument))]
pub(crate) fn with_argument<'a>(
    alloc: Global,
    command: Command<'a>,
    name: &'a str,
) -> Result<Command<'a>, AllocError>
    ensures { IfOk result (λ more. app_of more ≡ with_argument (app_of command.entry) name.entry.now) }
{
    let argument = Arg::new(alloc, name).required(true);
    Ok(command.arg(argument)?)
}

/// The command, with an argument of one value or more.
#[tactic(auto, unfolding(crate::specs::Commands::with_names))]
pub(crate) fn with_names<'a>(
    alloc: Global,
    command: Command<'a>,
    name: &'a str,
) -> Result<Command<'a>, AllocError>
    ensures { IfOk result (λ more. app_of more ≡ with_names (app_of command.entry) name.entry.now) }
{
    let names = Arg::new(alloc, name).required(true).num_args(1..);
    Ok(command.arg(names)?)
}

/// The command, with the names of one file or more.
pub(crate) fn with_files<'a>(alloc: Global, command: Command<'a>) -> Result<Command<'a>, AllocError>
    ensures { IfOk result (λ more. app_of more ≡ with_files (app_of command.entry)) }
{
    with_names(alloc, command, "FILE")
}

/// The command, with an option of one value.
#[tactic(auto, unfolding(crate::specs::Commands::with_option))]
pub(crate) fn with_option<'a>(
    alloc: Global,
    command: Command<'a>,
    name: &'a str,
) -> Result<Command<'a>, AllocError>
    ensures { IfOk result (λ more. app_of more ≡ with_option (app_of command.entry) name.entry.now) }
{
    let option = Arg::new(alloc, name).long(name);
    Ok(command.arg(option)?)
}

/// The command, with the options that choose how traces are cut and given places.
pub(crate) fn with_traces<'a>(
    alloc: Global,
    command: Command<'a>,
) -> Result<Command<'a>, AllocError>
    ensures { IfOk result (λ more. app_of more ≡ with_traces (app_of command.entry)) }
{
    let command = with_option(alloc, command, "policy")?;
    with_option(alloc, command, "traces")
}

/// The command, with the options of compiling.
pub(crate) fn with_choice<'a>(
    alloc: Global,
    command: Command<'a>,
) -> Result<Command<'a>, AllocError>
    ensures { IfOk result (λ more. app_of more ≡ with_choice (app_of command.entry)) }
{
    let command = with_traces(alloc, command)?;
    let command = with_option(alloc, command, "regs")?;
    with_option(alloc, command, "jobs")
}

/// The command, with the options of compiling and running.
pub(crate) fn with_run<'a>(alloc: Global, command: Command<'a>) -> Result<Command<'a>, AllocError>
    ensures { IfOk result (λ more. app_of more ≡ with_run (app_of command.entry)) }
{
    let command = with_choice(alloc, command)?;
    with_option(alloc, command, "steps")
}
