//! What words ask for.

use alloc_choice::{Builder, Choice, Policy};
use explanations::{Format, Topic};

/// What a command is asked for. Files go by their names, of which there is one at least. A choice has 4 to 16 registers
/// and 1 to 64 workers. A run makes at most `steps` steps, and a
/// meaning takes at most `turns` turns; each is at most 1,000,000,000,000,000.
#[derive(Debug, Drop)]
pub enum Request<'a> {
    /// Compile files and run their image.
    Run {
        files: Vec<&'a str>,
        choice: Choice,
        steps: u64,
    },
    /// Compile files, and write their image to the file `out`. Where the file `from` is named, it has to hold the image that
    /// the same files have in version 1. Where the file `notes` is named, which is another than `out`, write the notes of the
    /// results behind the image to it.
    Build {
        out: &'a str,
        files: Vec<&'a str>,
        choice: Choice,
        from: Option<&'a str>,
        notes: Option<&'a str>,
    },
    /// Compile files, and write the native program of their image to the file `out`.
    Elf {
        out: &'a str,
        files: Vec<&'a str>,
        choice: Choice,
    },
    /// Run the image that a file holds.
    Exec {
        image: &'a str,
        steps: u64,
    },
    /// Compile files up to their traces, and tell these.
    Traces {
        files: Vec<&'a str>,
        choice: Choice,
    },
    /// Make a module of `size` procedures, 1 to 1,000, compile it and run its image.
    Bulk {
        seed: u64,
        size: u32,
        choice: Choice,
        steps: u64,
    },
    /// Audit the results in the notes that the file `notes` holds for the traces of files, over `regs` registers, 4 to 16, and write
    /// the image that is linked from them to the file `out`.
    Audit {
        out: &'a str,
        notes: &'a str,
        files: Vec<&'a str>,
        builder: Builder,
        regs: u8,
    },
    /// Compile files, and write the object of the last one to the file `out`.
    Object {
        out: &'a str,
        files: Vec<&'a str>,
        choice: Choice,
    },
    /// Join the objects that files hold, of which there is one at least, and write their image to the file `out`.
    Link {
        out: &'a str,
        objects: Vec<&'a str>,
    },
    /// Check files, and do what their program means, turn by turn.
    Mean {
        files: Vec<&'a str>,
        turns: u64,
    },
    /// Compile files, and tell on the same input how what their program means ends, and how the run of their image does.
    Both {
        files: Vec<&'a str>,
        choice: Choice,
        steps: u64,
        turns: u64,
    },
    /// Answer the jobs of the list that a file holds.
    Batch {
        list: &'a str,
        choice: Choice,
        steps: u64,
    },
    /// Judge files, and tell in this format where a rule is broken.
    Check {
        files: Vec<&'a str>,
        format: Format,
    },
    /// Explain what this is.
    Explain {
        topic: Topic,
    },
    /// Compile files by each policy, and tell what each takes and how the run of its image ends, in a table. `jobs` is 1 to 64.
    Compare {
        files: Vec<&'a str>,
        jobs: u32,
        steps: u64,
    },
    /// Compile files, and write a page that shows how registers are given, beside another policy where that is named, to the file `out`.
    Show {
        out: &'a str,
        files: Vec<&'a str>,
        choice: Choice,
        against: Option<Policy>,
    },
    /// Tell the commands and their options.
    Help,
}
