//! The results of the last traces.

ghost use Rattle.std.specs.Prelude.{◌≡◌, filter, nat_le, IfOk};

use lir_core::TraceOut;
use outside::Memory;
use std::alloc::Global;

/// Of results those whose traces are numbered from `first` on. Takes time in proportion to their number.
pub fn take_own(alloc: Global, outs: Vec<TraceOut>, first: u32) -> Result<Vec<TraceOut>, Memory>
    ensures { IfOk result (λ own. own.items ≡ filter (λ out. nat_le first out.trace) outs.items) }
{
    let mut own = Vec::new(alloc);
    for out in outs {
        if first <= out.trace {
            own.push(out)?;
        }
    }
    Ok(own)
}
