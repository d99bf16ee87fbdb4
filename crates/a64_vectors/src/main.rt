//! Holds the A64 table against words of real A64 tools.
//!
//! Each word of `a64-encodings.txt` must be read as an instruction, be that instruction's word, and print as GNU
//! objdump prints it; no word of `a64-undefined.txt` may be read. Each line that disagrees is printed.
#![tactic(auto)]

mod vectors;

use crate::vectors::Kind;
use std::process::ExitCode;
use std::{fs, io};

fn main(rt: HostRuntime) -> io::Result<ExitCode> {
    let encodings = fs::read_to_string(&rt, "a64-encodings.txt")?;
    let undefined = fs::read_to_string(&rt, "a64-undefined.txt")?;
    let known = vectors::compare(&rt, encodings.as_str(), Kind::Encodings)?;
    let unknown = vectors::compare(&rt, undefined.as_str(), Kind::Undefined)?;
    println!(rt; "encodings {}", known.agree)?;
    println!(rt; "undefined {}", unknown.agree)?;
    if known.differ == 0 && unknown.differ == 0 {
        Ok(ExitCode::SUCCESS)
    } else {
        Ok(ExitCode::FAILURE)
    }
}
