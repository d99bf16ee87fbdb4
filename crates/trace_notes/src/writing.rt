//! From results to bytes.

ghost use Rattle.std.specs.Prelude.{◌≡◌, ◌≤◌, length, All, IfOk};
ghost use Rattle.std.specs.Result.{IfErr};
ghost use Rattle.plain_form.specs.results.Bounds.{IsNotable};
ghost use Rattle.trace_notes.specs.Notes.{AreNotes, notes, most_bytes, IsTooLong};

use crate::fault::NoteFault;
use crate::reading::MARK;
use lir_core::TraceOut;
use plain_form::put_list;
use std::alloc::Global;

/// The most bytes that notes have.
const MOST: usize = 67_108_864;

/// The notes of results. It takes time in proportion to their length. Registers are at most 15, and values in rows of
/// registers below 2^32 - 1.
pub fn write_notes(alloc: Global, outs: &[TraceOut]) -> Result<Vec<u8>, NoteFault>
    requires { All IsNotable outs.now }
    ensures notes { IfOk result (λ bytes. bytes.items ≡ notes outs.now) }
    ensures short { IfOk result (λ bytes. length bytes.items ≤ most_bytes) }
    // So `read_notes` reads them as these results.
    ensures read { IfOk result (λ bytes. AreNotes outs.now) }
    // They are refused where they would be too long, and nowhere else.
    ensures limit { IfErr result (λ e. IsTooLong e (length (notes outs.now))) }
{
    let mut out = Vec::new(alloc);
    out.extend_from_slice(&MARK)?;
    put_list(&mut out, outs)?;
    if out.len() > MOST {
        return Err(NoteFault::Limit);
    }
    Ok(out)
}
