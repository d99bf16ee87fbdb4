//! From bytes to results.

ghost use Rattle.std.specs.Prelude.{◌≡◌, ◌≤◌, List, length, All, IfOk, Ok};
ghost use Rattle.lir_core.specs.declared.places.TraceOut.{TraceOut};
ghost use Rattle.plain_form.specs.results.Bounds.{IsNotable};
ghost use Rattle.trace_notes.specs.Notes.{AreNotes, notes, notes_in, most_bytes, Tells};

use crate::fault::NoteFault;
use lir_core::{Items, TraceOut};
use plain_form::read_whole;
use std::alloc::Global;

/// The first bytes of notes.
pub(crate) const MARK: [u8; 8] = *b"TRC64NOT";

// The results in bytes, or the first rule that these break.
fn results_in(alloc: Global, bytes: &[u8]) -> Result<Vec<TraceOut>, NoteFault>
    requires { length bytes.now ≤ most_bytes }
    ensures { Tells result (notes_in bytes.now) }
{
    let outs: Items<TraceOut> = read_whole(alloc, &MARK, bytes)?;
    Ok(outs.into_vec())
}

/// The results whose notes these bytes are. It takes time in proportion to their number.
pub fn read_notes(alloc: Global, bytes: &[u8]) -> Result<Vec<TraceOut>, NoteFault>
    requires { length bytes.now ≤ most_bytes }
    // What is read is written back as the same bytes, and `write_notes` can be asked to.
    ensures found { IfOk result (λ outs. AreNotes outs.items × (bytes.now ≡ notes outs.items)) }
    ensures notable { IfOk result (λ outs. All IsNotable outs.items) }
    // What has these bytes is read, unless memory runs out.
    ensures only { (outs : List TraceOut) → AreNotes outs → bytes.now ≡ notes outs → Tells result (Ok outs) }
    // A fault is the first one.
    ensures exact { Tells result (notes_in bytes.now) }
{
    results_in(alloc, bytes)
}
