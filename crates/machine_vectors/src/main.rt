//! Holds the machine against effects of real A64 processors and against another machine, and runs a few programs.
//!
//! Each line of `a64-effects.txt` is made true of a machine's registers and memory, at two bases of the memory;
//! the word is carried out by the code that a step runs, and all that the line names must be as it says, and all
//! else as it was. Those lines are of data instructions. Each line of `a64-programs.txt` is a program, with branches,
//! services and traps too, and how another machine halts on it and what it writes. Each line that disagrees is
//! printed. With a loop's name and a number of steps as arguments it runs that loop instead, for `bench/machine.sh`.
#![tactic(auto)]

mod effects;
mod programs;

use std::process::ExitCode;
use std::{env, fs};

fn main(rt: HostRuntime) -> anyhow::Result<ExitCode> {
    let words = env::args(&rt)?.skip(1).collect::<Vec<String>>(rt.alloc())?;
    if let [name, steps] = words.as_slice() {
        programs::run_loop(&rt, name.as_str(), steps.as_str())?;
        return Ok(ExitCode::SUCCESS);
    }
    let text = fs::read_to_string(&rt, "a64-effects.txt")?;
    let low = effects::compare(&rt, text.as_str(), 0x2000_0000)?;
    let high = effects::compare(&rt, text.as_str(), 0x8000_0000)?;
    programs::run_words(&rt)?;
    programs::run_services(&rt)?;
    programs::run_largest(&rt)?;
    let text = fs::read_to_string(&rt, "a64-programs.txt")?;
    let programs = programs::compare(&rt, text.as_str())?;
    if low && high && programs {
        Ok(ExitCode::SUCCESS)
    } else {
        Ok(ExitCode::FAILURE)
    }
}
