//! The words of the program: what each command asks for, or that they are refused.
//!
//! The first word is the command, byte for byte. The words behind it are read by its `clap` command (**command_words**), and each value
//! is tested against its table (**option_values**, **word_requests**). `specs/Asked.antt` says what words ask for (`asked`).
#![tactic(auto)]

mod reading;

pub use command_words::WordsFault;
pub use option_values::{Builder, Choice, Format, Policy, Topic};
pub use reading::read_words;
pub use word_requests::Request;
