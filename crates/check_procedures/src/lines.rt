//! The lines of a text, counted from 1.
//!
//! `line_starts` goes through a text once and notes where lines begin; `line_at` is the line of a symbol.

ghost use Rattle.std.specs.Prelude.{◌≡◌, IfOk, IfErr};
ghost use Rattle.ob_judge.specs.Scopes.{line as judged_line};
ghost use Rattle.check_procedures.specs.lines.Lines.{IsLineTable};

use check_types::steps::{CheckFault, Source};
use std::alloc::Global;

/// The places where the lines of a text begin, but the first. For a text whose places have no numbers of 32 bits there is no
/// memory.
pub fn line_starts(alloc: Global, bytes: &[u8]) -> Result<Vec<u32>, CheckFault>
    ensures lines { IfOk result (λ v. IsLineTable bytes.now v.items) }
    ensures memory { IfErr result (λ e. e ≡ CheckFault.Memory) }
{
    if bytes.len() >= 4_294_967_295 {
        return Err(CheckFault::Memory);
    }
    let mut starts = Vec::new(alloc);
    for (i, byte) in bytes.iter().enumerate() {
        if *byte == b'\n' {
            starts.push(i as u32 + 1)?;
        }
    }
    Ok(starts)
}

/// The line of a symbol, by the places where the lines of its text begin. Takes the logarithm of their number.
pub fn line_at(source: &Source, lines: &[u32], i: u32) -> u32
    requires { IsLineTable source.now.bytes lines.now }
    ensures { result ≡ judged_line source.now i }
{
    let place = source.place(i);
    1 + lines.partition_point(|start| *start <= place) as u32
}
