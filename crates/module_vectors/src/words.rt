//! Procedures as words.

use ssa_core::{Block, Op, Proc};
use std::alloc::{AllocError, Global};
use vector_texts::{name_of, push_end, push_numbers, push_optional};

/// Adds an operation: its name and number, the value that it makes, and those that it reads.
fn push_op(text: &mut String, op: &Op) -> Result<(), AllocError> {
    let (name, number) = name_of(op.code);
    write!(text, " op {name} {number}")?;
    push_optional(text, op.def)?;
    push_numbers(text, op.uses.as_slice())
}

/// Adds a block: its frequency, the block that enters its loop, its parameters, its operations and its end.
fn push_block(text: &mut String, block: &Block) -> Result<(), AllocError> {
    let freq = block.freq;
    write!(text, " block {freq}")?;
    push_optional(text, block.enter)?;
    text.push_str(" params")?;
    push_numbers(text, block.params.as_slice())?;
    for op in block.ops.as_slice() {
        push_op(text, op)?;
    }
    push_end(text, &block.end)
}

/// The line of a procedure: its values and argument words, whether its calls are counted, the cells and bytes of its local data,
/// and its blocks.
pub(crate) fn procedure_line(alloc: Global, procedure: &Proc) -> Result<String, AllocError> {
    let kind = if procedure.counted { "counted" } else { "body" };
    let mut text = format!(in alloc;
        "proc {} {} {kind} {} {}",
        procedure.values, procedure.args, procedure.local_cells, procedure.local_bytes
    )?;
    for block in procedure.blocks.as_slice() {
        push_block(&mut text, block)?;
    }
    Ok(text)
}
