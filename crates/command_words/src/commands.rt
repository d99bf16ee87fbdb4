//! The commands, with their arguments and options.

ghost use Rattle.std.specs.Prelude.{◌≡◌, IfOk};
ghost use Rattle.clap.specs.Words.{app_of};
ghost use Rattle.command_words.specs.Commands.{run_command, build_command, elf_command, exec_command, traces_command, bulk_command, audit_command, object_command, link_command, mean_command, both_command, batch_command, check_command, explain_command, compare_command, show_command};

use crate::arguments::{
    with_argument, with_choice, with_files, with_names, with_option, with_run, with_traces,
};
use clap::{Arg, Command};
use std::alloc::{AllocError, Global};

/// `run FILE {FILE}`, with all options
pub(crate) fn run_command<'a>(alloc: Global) -> Result<Command<'a>, AllocError>
    ensures { IfOk result (λ command. app_of command ≡ run_command) }
{
    let command = with_files(alloc, Command::new(alloc, "run"))?;
    with_run(alloc, command)
}

/// `build OUT FILE {FILE} [--from IMAGE] [--notes NAME]`, with the options of compiling
pub(crate) fn build_command<'a>(alloc: Global) -> Result<Command<'a>, AllocError>
    ensures { IfOk result (λ command. app_of command ≡ build_command) }
{
    let command = with_argument(alloc, Command::new(alloc, "build"), "OUT")?;
    let command = with_files(alloc, command)?;
    let command = with_choice(alloc, command)?;
    let command = with_option(alloc, command, "from")?;
    with_option(alloc, command, "notes")
}

/// `elf OUT FILE {FILE}`, with the options of compiling
pub(crate) fn elf_command<'a>(alloc: Global) -> Result<Command<'a>, AllocError>
    ensures { IfOk result (λ command. app_of command ≡ elf_command) }
{
    let command = with_argument(alloc, Command::new(alloc, "elf"), "OUT")?;
    let command = with_files(alloc, command)?;
    with_choice(alloc, command)
}

/// `exec IMAGE [--steps N]`
pub(crate) fn exec_command<'a>(alloc: Global) -> Result<Command<'a>, AllocError>
    ensures { IfOk result (λ command. app_of command ≡ exec_command) }
{
    let command = with_argument(alloc, Command::new(alloc, "exec"), "IMAGE")?;
    with_option(alloc, command, "steps")
}

/// `traces FILE {FILE} [--policy NAME] [--traces NAME]`
pub(crate) fn traces_command<'a>(alloc: Global) -> Result<Command<'a>, AllocError>
    ensures { IfOk result (λ command. app_of command ≡ traces_command) }
{
    let command = with_files(alloc, Command::new(alloc, "traces"))?;
    with_traces(alloc, command)
}

/// `bulk SEED SIZE`, with all options
pub(crate) fn bulk_command<'a>(alloc: Global) -> Result<Command<'a>, AllocError>
    ensures { IfOk result (λ command. app_of command ≡ bulk_command) }
{
    let command = with_argument(alloc, Command::new(alloc, "bulk"), "SEED")?;
    let command = with_argument(alloc, command, "SIZE")?;
    with_run(alloc, command)
}

/// `audit OUT NOTES FILE {FILE} [--traces NAME] [--regs N]`
pub(crate) fn audit_command<'a>(alloc: Global) -> Result<Command<'a>, AllocError>
    ensures { IfOk result (λ command. app_of command ≡ audit_command) }
{
    let command = with_argument(alloc, Command::new(alloc, "audit"), "OUT")?;
    let command = with_argument(alloc, command, "NOTES")?;
    let command = with_files(alloc, command)?;
    let command = with_option(alloc, command, "traces")?;
    with_option(alloc, command, "regs")
}

/// `object OUT FILE {FILE}`, with the options of compiling
pub(crate) fn object_command<'a>(alloc: Global) -> Result<Command<'a>, AllocError>
    ensures { IfOk result (λ command. app_of command ≡ object_command) }
{
    let command = with_argument(alloc, Command::new(alloc, "object"), "OUT")?;
    let command = with_files(alloc, command)?;
    with_choice(alloc, command)
}

/// `link OUT OBJECT {OBJECT}`
pub(crate) fn link_command<'a>(alloc: Global) -> Result<Command<'a>, AllocError>
    ensures { IfOk result (λ command. app_of command ≡ link_command) }
{
    let command = with_argument(alloc, Command::new(alloc, "link"), "OUT")?;
    with_names(alloc, command, "OBJECT")
}

/// `mean FILE {FILE} [--turns N]`
pub(crate) fn mean_command<'a>(alloc: Global) -> Result<Command<'a>, AllocError>
    ensures { IfOk result (λ command. app_of command ≡ mean_command) }
{
    let command = with_files(alloc, Command::new(alloc, "mean"))?;
    with_option(alloc, command, "turns")
}

/// `both FILE {FILE} [--turns N]`, with all options of `run`
pub(crate) fn both_command<'a>(alloc: Global) -> Result<Command<'a>, AllocError>
    ensures { IfOk result (λ command. app_of command ≡ both_command) }
{
    let command = with_files(alloc, Command::new(alloc, "both"))?;
    let command = with_run(alloc, command)?;
    with_option(alloc, command, "turns")
}

/// `batch LIST`, with all options of `run`
pub(crate) fn batch_command<'a>(alloc: Global) -> Result<Command<'a>, AllocError>
    ensures { IfOk result (λ command. app_of command ≡ batch_command) }
{
    let command = with_argument(alloc, Command::new(alloc, "batch"), "LIST")?;
    with_run(alloc, command)
}

/// `check FILE {FILE} [--format NAME]`
pub(crate) fn check_command<'a>(alloc: Global) -> Result<Command<'a>, AllocError>
    ensures { IfOk result (λ command. app_of command ≡ check_command) }
{
    let command = with_files(alloc, Command::new(alloc, "check"))?;
    with_option(alloc, command, "format")
}

/// `explain [TOPIC]`
pub(crate) fn explain_command<'a>(alloc: Global) -> Result<Command<'a>, AllocError>
    ensures { IfOk result (λ command. app_of command ≡ explain_command) }
{
    let topic = Arg::new(alloc, "TOPIC");
    Ok(Command::new(alloc, "explain").arg(topic)?)
}

/// `compare FILE {FILE} [--jobs N] [--steps N]`
pub(crate) fn compare_command<'a>(alloc: Global) -> Result<Command<'a>, AllocError>
    ensures { IfOk result (λ command. app_of command ≡ compare_command) }
{
    let command = with_files(alloc, Command::new(alloc, "compare"))?;
    let command = with_option(alloc, command, "jobs")?;
    with_option(alloc, command, "steps")
}

/// `show OUT FILE {FILE} [--policy NAME] [--traces NAME] [--regs N] [--against NAME]`
pub(crate) fn show_command<'a>(alloc: Global) -> Result<Command<'a>, AllocError>
    ensures { IfOk result (λ command. app_of command ≡ show_command) }
{
    let command = with_argument(alloc, Command::new(alloc, "show"), "OUT")?;
    let command = with_files(alloc, command)?;
    let command = with_traces(alloc, command)?;
    let command = with_option(alloc, command, "regs")?;
    with_option(alloc, command, "against")
}
