//! The texts of operations and ends.

ghost use Rattle.std.specs.Prelude.{◌≡◌, ◌++◌, OnOk, codes, slice_get};
ghost use Rattle.trace_rows.specs.Names.{numbered, condition_text};
ghost use Rattle.trace_rows.specs.Operations.{value_text, spaced, values_text, made_text, operation_text, maybe_operation, ways, end_text};

use crate::marks::put_value_begin;
use crate::names::{condition_name, put_code, put_numbered};
use html_text::{put_number, put_text};
use lir_core::{Leave, Lir};
use std::alloc::{AllocError, Global};

/// Appends a value with its mark.
#[tactic(auto, unfolding(crate::specs::Operations::value_text))]
pub(crate) fn put_value(alloc: Global, text: &mut Vec<u8>, value: u32) -> Result<(), AllocError>
    ensures { OnOk result (text.new.items ≡ text.old.items ++ value_text value) }
{
    put_value_begin(text)?;
    put_number(alloc, text, u64::from(value))?;
    put_text(text, b"\">v")?;
    put_number(alloc, text, u64::from(value))?;
    put_text(text, b"</i>")
}

/// Appends a blank and a value.
#[tactic(auto, unfolding(crate::specs::Operations::spaced))]
pub(crate) fn put_spaced(alloc: Global, text: &mut Vec<u8>, value: u32) -> Result<(), AllocError>
    ensures { OnOk result (text.new.items ≡ text.old.items ++ spaced value) }
{
    put_text(text, b" ")?;
    put_value(alloc, text, value)
}

/// Appends values, with a blank before each.
pub(crate) fn put_values(
    alloc: Global,
    text: &mut Vec<u8>,
    values: &[u32],
) -> Result<(), AllocError>
    ensures { OnOk result (text.new.items ≡ text.old.items ++ values_text values.now) }
{
    for value in values {
        put_spaced(alloc, text, *value)?;
    }
    Ok(())
}

// The value that is made.
fn put_made(alloc: Global, text: &mut Vec<u8>, def: Option<u32>) -> Result<(), AllocError>
    ensures { OnOk result (text.new.items ≡ text.old.items ++ made_text def) }
{
    match def {
        None => Ok(()),
        Some(value) => {
            put_value(alloc, text, value)?;
            put_text(text, b" = ")
        }
    }
}

fn put_operation(alloc: Global, text: &mut Vec<u8>, op: &Lir) -> Result<(), AllocError>
    ensures { OnOk result (text.new.items ≡ text.old.items ++ operation_text op.now) }
{
    put_made(alloc, text, op.def)?;
    put_code(alloc, text, op.template)?;
    put_values(alloc, text, op.uses.as_slice())
}

/// Appends the operation of a number.
pub(crate) fn put_operation_at(
    alloc: Global,
    text: &mut Vec<u8>,
    ops: &[Lir],
    index: u32,
) -> Result<(), AllocError>
    ensures { OnOk result (text.new.items ≡ text.old.items ++ maybe_operation (slice_get ops.now index)) }
{
    match ops.get(index as usize) {
        None => put_text(text, b"no operation"),
        Some(op) => put_operation(alloc, text, op),
    }
}

fn put_ways(alloc: Global, text: &mut Vec<u8>, one: u32, other: u32) -> Result<(), AllocError>
    ensures { OnOk result (text.new.items ≡ text.old.items ++ ways one other) }
{
    put_numbered(alloc, text, b" yes", u64::from(one))?;
    put_numbered(alloc, text, b" no", u64::from(other))
}

fn put_jump(alloc: Global, text: &mut Vec<u8>, to: u32, args: &[u32]) -> Result<(), AllocError>
    ensures { OnOk result (text.new.items ≡ text.old.items ++ (numbered (codes "Jump") to ++ values_text args.now)) }
{
    put_numbered(alloc, text, b"Jump", u64::from(to))?;
    put_values(alloc, text, args)
}

fn put_branch(
    alloc: Global,
    text: &mut Vec<u8>,
    condition: u8,
    values: &[u32],
    one: u32,
    other: u32,
) -> Result<(), AllocError>
    ensures { OnOk result (text.new.items ≡ text.old.items ++ (codes "Branch " ++ (condition_text condition ++ (values_text values.now ++ ways one other)))) }
{
    put_text(text, b"Branch ")?;
    put_text(text, condition_name(condition))?;
    put_values(alloc, text, values)?;
    put_ways(alloc, text, one, other)
}

fn put_nonzero(
    alloc: Global,
    text: &mut Vec<u8>,
    values: &[u32],
    one: u32,
    other: u32,
) -> Result<(), AllocError>
    ensures { OnOk result (text.new.items ≡ text.old.items ++ (codes "Nonzero" ++ (values_text values.now ++ ways one other))) }
{
    put_text(text, b"Nonzero")?;
    put_values(alloc, text, values)?;
    put_ways(alloc, text, one, other)
}

fn put_return(alloc: Global, text: &mut Vec<u8>, value: u32) -> Result<(), AllocError>
    ensures { OnOk result (text.new.items ≡ text.old.items ++ (codes "Return" ++ spaced value)) }
{
    put_text(text, b"Return")?;
    put_spaced(alloc, text, value)
}

/// Appends how a block ends.
pub(crate) fn put_end(alloc: Global, text: &mut Vec<u8>, end: &Leave) -> Result<(), AllocError>
    ensures { OnOk result (text.new.items ≡ text.old.items ++ end_text end.now) }
{
    match end {
        Leave::Jump { to, args } => put_jump(alloc, text, *to, args.as_slice()),
        Leave::Branch {
            cond,
            a,
            b,
            yes,
            no,
        } => put_branch(alloc, text, *cond, &[*a, *b], *yes, *no),
        Leave::Nonzero { a, yes, no } => put_nonzero(alloc, text, &[*a], *yes, *no),
        Leave::Return(None) => put_text(text, b"Return"),
        Leave::Return(Some(value)) => put_return(alloc, text, *value),
        Leave::Trap(kind) => put_numbered(alloc, text, b"Trap", u64::from(*kind)),
    }
}
