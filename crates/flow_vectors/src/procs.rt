//! Procedures as words.

use outside::Memory;
use ssa_core::{Block, Items, Numbers, Op, Proc};
use std::alloc::Global;
use vector_texts::{Words, code_of, end_of};

/// The procedure of a line; what is missing is left out or 0, and an unknown operation is `Svc(0)`, which fits nowhere.
pub(crate) fn proc_of(alloc: Global, line: &str) -> Result<Proc, Memory> {
    let mut words = Words::new(line);
    let _ = words.takes("proc");
    let values = words.or_zero();
    let args = words.or_zero();
    let mut blocks = Vec::new(alloc);
    for _ in 0..u32::MAX {
        if !words.takes("block") {
            break;
        }
        blocks.push(block(alloc, &mut words)?)?;
    }
    Ok(Proc {
        blocks: Items::from_vec(blocks),
        values,
        args,
        counted: true,
        local_cells: 0,
        local_bytes: 0,
    })
}

fn block(alloc: Global, words: &mut Words) -> Result<Block, Memory> {
    let freq = words.number().unwrap_or(0);
    let enter = words.optional();
    let _ = words.takes("params");
    let params = Numbers::from_slice(alloc, words.numbers(alloc)?.as_slice())?;
    let ops = Items::from_vec(operations(alloc, words)?);
    let end = end_of(alloc, words)?;
    Ok(Block {
        params,
        ops,
        end,
        freq,
        enter,
    })
}

fn operations(alloc: Global, words: &mut Words) -> Result<Vec<Op>, Memory> {
    let mut ops = Vec::new(alloc);
    for _ in 0..u32::MAX {
        if !words.takes("op") {
            break;
        }
        let name = words.word();
        let number = words.or_zero();
        let def = words.optional();
        let uses = Numbers::from_slice(alloc, words.numbers(alloc)?.as_slice())?;
        ops.push(Op {
            code: code_of(name, number as u64),
            uses,
            def,
        })?;
    }
    Ok(ops)
}
