//! The call.

ghost use Rattle.std.specs.Prelude.{◌↔◌, IfOk, IsTrue};
ghost use Rattle.ssa_core.specs.Validity.{IsValid};

use crate::form::is_formed;
use crate::makers::{are_made_once, makers};
use crate::order::blocks_are_in_order;
use crate::search::is_first_free;
use outside::Memory;
use ssa_core::Proc;
use std::alloc::Global;

/// Whether a procedure is valid. Takes memory in proportion to the procedure, and time in proportion to that and to the
/// edges into blocks, each as often as values are live there.
pub fn is_valid(alloc: Global, proc: &Proc) -> Result<bool, Memory>
    ensures { IfOk result (λ valid. IsTrue valid ↔ IsValid proc.now) }
{
    let blocks = proc.blocks.as_slice();
    if !is_formed(proc) {
        return Ok(false);
    }
    if !are_made_once(alloc, blocks, proc.values)? {
        return Ok(false);
    }
    if !blocks_are_in_order(alloc, blocks, proc.values)? {
        return Ok(false);
    }
    let makers = makers(alloc, blocks, proc.values)?;
    Ok(is_first_free(alloc, blocks, makers.as_slice())?)
}
