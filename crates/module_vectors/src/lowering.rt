//! The procedures that modules become.
//!
//! Of a program it tells `procedures NUMBER` and a line for each procedure, with each number that it has:
//!
//!     proc VALUES ARGS (counted | body) CELLS BYTES {block FREQ ENTER params {V} {op NAME NUMBER DEF {V}} END}
//!
//! where ENTER and DEF are a number or `-`, NUMBER is 0 where the operation has none, and an end is as `vector_texts` writes it. Of
//! the others it tells `limit NUMBER at INDEX`, or the fault of their texts.

use crate::words::procedure_line;
use items::Items;
use outside::Memory;
use source_program::{SourceFault, source_program};
use ssa_build::lower;
use ssa_core::Proc;
use ssa_tables::LowerFault;
use std::alloc::Global;

/// The lines of procedures.
fn lines_of(alloc: Global, procedures: &[Proc]) -> Result<String, Memory> {
    let count = procedures.len();
    let mut text = format!(in alloc; "procedures {count}")?;
    for procedure in procedures {
        text.push_str("\n")?;
        text.push_str(procedure_line(alloc, procedure)?.as_str())?;
    }
    Ok(text)
}

/// What modules are lowered to, in lines.
pub(crate) fn procedure_lines(alloc: Global, texts: &[Items<u8>]) -> Result<String, Memory> {
    let program = match source_program(alloc, texts) {
        Ok(program) => program,
        Err(SourceFault::Memory) => return Err(Memory),
        Err(fault) => return Ok(format!(in alloc; "{fault}")?),
    };
    match lower(alloc, &program) {
        Ok(procedures) => lines_of(alloc, procedures.as_slice()),
        Err(LowerFault::Limit { number, index }) => {
            Ok(format!(in alloc; "limit {number} at {index}")?)
        }
        Err(LowerFault::Memory) => Err(Memory),
    }
}
