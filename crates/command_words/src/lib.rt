//! The words of each command, as `clap` reads them: its arguments and its options of one value.
//!
//! The first word is the command, byte for byte. The words behind it are read by a `clap` command of that name, so the
//! written meaning of this command decides which words are refused. `specs/Commands.antt` has each command,
//! `specs/Taking.antt` says what a command answers of words.
#![tactic(auto)]

mod arguments;
mod commands;
mod fault;
mod matching;

pub use fault::WordsFault;
pub use matching::{
    audit, batch, both, build, bulk, check, compare, elf, exec, explain, help, link, mean, object,
    run, show, traces,
};
