//! The line of a trace.

ghost use Rattle.std.specs.Prelude.{◌≡◌, ◌++◌, OnOk, slice_get};
ghost use Rattle.std.specs.Fmt.{decimal};
ghost use Rattle.alloc_choice.specs.Choice.{freq_of as frequency_in};
ghost use Rattle.trace_report.specs.Lines.{name_of, greatest, parent_text, more_blocks, blocks_text, word, which, how, line_of};

use alloc_choice::Used;
use lir_core::{Flow, Trace};
use std::alloc::{AllocError, Global};

/// What a line tells of a trace beside its blocks: its procedure, its number there, the trace above it, and by what its values
/// are given places.
#[derive(Clone, Copy)]
pub(crate) struct Told {
    pub(crate) procedure: u32,
    pub(crate) number: u32,
    pub(crate) parent: Option<u32>,
    pub(crate) used: Used,
}

/// How a policy that is used is called.
pub fn name_of(used: Used) -> &'static [u8]
    ensures { result.now ≡ name_of used }
{
    match used {
        Used::Plain => b"plain",
        Used::Trivial => b"trivial",
        Used::Linear => b"linear",
        Used::BottomUp => b"bottomup",
    }
}

// How often a node runs; not at all where there is none.
fn frequency(flow: &Flow, number: u32) -> u64
    ensures { result ≡ frequency_in (slice_get flow.now.nodes number) }
{
    match flow.nodes.as_slice().get(number as usize) {
        Some(node) => node.freq,
        None => 0,
    }
}

/// How often the most frequent of these nodes runs, as often as their counts say; 0 of none.
pub fn greatest(flow: &Flow, numbers: &[u32]) -> u64
    ensures { result ≡ greatest flow.now.nodes 0 numbers.now }
{
    let mut most = 0;
    for number in numbers {
        most = frequency(flow, *number).max(most);
    }
    most
}

// Appends a number.
fn put_number(alloc: Global, text: &mut Vec<u8>, number: u64) -> Result<(), AllocError>
    ensures { OnOk result (text.new.items ≡ text.old.items ++ decimal number) }
{
    let digits = format!(in alloc; "{number}")?;
    text.extend_from_slice(digits.as_bytes())?;
    Ok(())
}

// Appends the number of the trace above, or what stands there where there is none.
fn put_parent(alloc: Global, text: &mut Vec<u8>, parent: Option<u32>) -> Result<(), AllocError>
    ensures { OnOk result (text.new.items ≡ text.old.items ++ parent_text parent) }
{
    match parent {
        Some(number) => put_number(alloc, text, u64::from(number)),
        None => {
            text.push(b'-')?;
            Ok(())
        }
    }
}

// Appends the blocks behind the first.
fn put_more_blocks(alloc: Global, text: &mut Vec<u8>, numbers: &[u32]) -> Result<(), AllocError>
    ensures { OnOk result (text.new.items ≡ text.old.items ++ more_blocks numbers.now) }
{
    for number in numbers {
        text.push(b',')?;
        put_number(alloc, text, u64::from(*number))?;
    }
    Ok(())
}

/// Appends blocks by their numbers, with a comma between two.
pub fn put_blocks(alloc: Global, text: &mut Vec<u8>, numbers: &[u32]) -> Result<(), AllocError>
    ensures { OnOk result (text.new.items ≡ text.old.items ++ blocks_text numbers.now) }
{
    match numbers {
        [] => Ok(()),
        [first, more @ ..] => {
            put_number(alloc, text, u64::from(*first))?;
            put_more_blocks(alloc, text, more)
        }
    }
}

// Appends a number and a blank.
fn put_number_word(alloc: Global, text: &mut Vec<u8>, number: u64) -> Result<(), AllocError>
    ensures { OnOk result (text.new.items ≡ text.old.items ++ word (decimal number)) }
{
    put_number(alloc, text, number)?;
    text.push(b' ')?;
    Ok(())
}

// Appends which trace it is, and how often it runs.
fn put_which(
    alloc: Global,
    text: &mut Vec<u8>,
    flow: &Flow,
    trace: &Trace,
    told: Told,
) -> Result<(), AllocError>
    ensures { OnOk result (text.new.items ≡ text.old.items ++ which flow.now.nodes trace.now told) }
{
    put_number_word(alloc, text, u64::from(told.procedure))?;
    put_number_word(alloc, text, u64::from(told.number))?;
    put_number_word(alloc, text, greatest(flow, trace.nodes.as_slice()))
}

// Appends the trace above and the policy.
fn put_origin(alloc: Global, text: &mut Vec<u8>, told: Told) -> Result<(), AllocError>
    ensures { OnOk result (text.new.items ≡ text.old.items ++ (word (parent_text told.parent) ++ word (name_of told.used))) }
{
    put_parent(alloc, text, told.parent)?;
    text.push(b' ')?;
    text.extend_from_slice(name_of(told.used))?;
    text.push(b' ')?;
    Ok(())
}

// Appends how its values get their places, and the line's end.
fn put_how(alloc: Global, text: &mut Vec<u8>, trace: &Trace, told: Told) -> Result<(), AllocError>
    ensures { OnOk result (text.new.items ≡ text.old.items ++ how trace.now told) }
{
    put_origin(alloc, text, told)?;
    put_blocks(alloc, text, trace.nodes.as_slice())?;
    text.push(b'\n')?;
    Ok(())
}

/// Appends the line of a trace.
pub(crate) fn put_line(
    alloc: Global,
    text: &mut Vec<u8>,
    flow: &Flow,
    trace: &Trace,
    told: Told,
) -> Result<(), AllocError>
    ensures { OnOk result (text.new.items ≡ text.old.items ++ line_of flow.now.nodes trace.now told) }
{
    put_which(alloc, text, flow, trace, told)?;
    put_how(alloc, text, trace, told)
}
