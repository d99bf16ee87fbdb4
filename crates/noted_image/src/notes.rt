//! The notes of all flows' results.

ghost use Rattle.std.specs.Prelude.{◌≡◌, ◌++◌, length, map, All, IfOk, OnOk};
ghost use Rattle.std.specs.List.{flat_map};
ghost use Rattle.plain_form.specs.results.Spelling.{result as spelled};
ghost use Rattle.plain_form.specs.results.Bounds.{IsNotable, TypedResult};
ghost use Rattle.planned_image.specs.audited_allocations.Joined.{joined};
ghost use Rattle.noted_image.specs.Notes.{AreKept};

use lir_core::TraceOut;
use outside::Memory;
use plain_form::{put_count, put_each};
use std::alloc::{AllocError, Global};

/// The first bytes of notes.
const MARK: [u8; 8] = *b"TRC64NOT";

/// The most bytes that notes have.
const MOST: usize = 67_108_864;

/// The notes of the results of flows, those of all flows one behind the other, or none where they are too long.
pub(crate) fn kept_notes(alloc: Global, outs: &[Vec<TraceOut>]) -> Result<Option<Vec<u8>>, Memory>
    requires { All IsNotable (joined (map (λ v. v.items) outs.now)) }
    ensures { IfOk result (AreKept (joined (map (λ v. v.items) outs.now))) }
{
    let count = count_all(outs)?;
    let mut notes = Vec::new(alloc);
    notes.extend_from_slice(&MARK)?;
    put_count(&mut notes, count)?;
    put_all(&mut notes, outs)?;
    if notes.len() > MOST {
        return Ok(None);
    }
    Ok(Some(notes))
}

// How many results there are.
fn count_all(outs: &[Vec<TraceOut>]) -> Result<usize, Memory>
    ensures { IfOk result (λ n. n ≡ length (joined (map (λ v. v.items) outs.now))) }
{
    let mut count: usize = 0;
    for own in outs {
        count = count.checked_add(own.len()).ok_or(Memory)?;
    }
    Ok(count)
}

// Puts the bytes of all results behind others.
fn put_all(notes: &mut Vec<u8>, outs: &[Vec<TraceOut>]) -> Result<(), AllocError>
    ensures bytes { OnOk result (notes.new.items ≡ notes.old.items ++ flat_map spelled (joined (map (λ v. v.items) outs.now))) }
    ensures typed { OnOk result (All TypedResult (joined (map (λ v. v.items) outs.now))) }
{
    for own in outs {
        put_each(notes, own.as_slice())?;
    }
    Ok(())
}
