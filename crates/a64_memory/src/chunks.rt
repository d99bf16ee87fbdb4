//! Bytes in chunks one after the other.

ghost use Rattle.std.specs.Prelude.{◌≡◌, ◌+◌, ◌*◌, ◌^◌, ◌<◌, ◌≤◌, ℕ, length, take, replicate, slice_index_or, IfOk};
ghost use Rattle.std.specs.Int.{from_le_bytes, w64};
ghost use Rattle.a64_memory.specs.Bytes.{splice, slab};
ghost use Rattle.a64_memory.specs.Chunks.{joined, AreOfLength};

use crate::chunk::{CHUNK, Chunk};
use std::alloc::{AllocError, Global};

/// So many chunks of zeros.
pub fn zero_chunks(alloc: Global, count: usize) -> Result<Vec<Chunk>, AllocError>
    ensures even { IfOk result (λ v. AreOfLength 1048576 v.items) }
    ensures count { IfOk result (λ v. length v.items ≡ count) }
    ensures zeros { IfOk result (λ v. (size : ℕ) → size ≤ 1048576 * count → take size (joined v.items) ≡ replicate size 0) }
{
    let mut chunks = Vec::with_capacity(alloc, count)?;
    for _ in 0..count {
        chunks.push(Chunk::zeros(alloc)?)?;
    }
    Ok(chunks)
}

/// The byte at a place.
pub fn byte_in(chunks: &[Chunk], at: usize) -> u8
    requires even { AreOfLength 1048576 chunks.now }
    requires inside { at < 1048576 * length chunks.now }
    ensures { result ≡ slice_index_or (joined chunks.now) at 0 }
{
    chunks[at / CHUNK].byte(at % CHUNK)
}

/// The eight bytes from a place on as a number, lowest first.
#[inline]
pub fn load8_in(chunks: &[Chunk], at: usize) -> u64
    requires even { AreOfLength 1048576 chunks.now }
    requires inside { at + 8 ≤ 1048576 * length chunks.now }
    requires small { at + 8 < 2 ^ 64 }
    ensures { result ≡ from_le_bytes w64 (slab (joined chunks.now) at 8) }
{
    let place = at % CHUNK;
    if place + 8 <= CHUNK {
        if let Some(number) = chunks[at / CHUNK].filled8(place) {
            return number;
        }
    }
    load8_by_bytes(chunks, at)
}

#[cold]
#[inline(never)]
fn load8_by_bytes(chunks: &[Chunk], at: usize) -> u64
    requires even { AreOfLength 1048576 chunks.now }
    requires inside { at + 8 ≤ 1048576 * length chunks.now }
    requires small { at + 8 < 2 ^ 64 }
    ensures { result ≡ from_le_bytes w64 (slab (joined chunks.now) at 8) }
{
    u64::from_le_bytes([
        byte_in(chunks, at),
        byte_in(chunks, at + 1),
        byte_in(chunks, at + 2),
        byte_in(chunks, at + 3),
        byte_in(chunks, at + 4),
        byte_in(chunks, at + 5),
        byte_in(chunks, at + 6),
        byte_in(chunks, at + 7),
    ])
}

/// Stores bytes from a place on.
#[inline]
pub fn store_in(chunks: &mut [Chunk], at: usize, bytes: &[u8])
    requires even { AreOfLength 1048576 chunks.old }
    requires inside { at + length bytes.now ≤ 1048576 * length chunks.old }
    requires small { at + length bytes.now < 2 ^ 64 }
    requires some { 0 < length bytes.now }
    ensures bytes { joined chunks.new ≡ splice (joined chunks.old) at bytes.now }
    ensures even { AreOfLength 1048576 chunks.new }
{
    let place = at % CHUNK;
    if place + bytes.len() <= CHUNK {
        chunks[at / CHUNK].put(place, bytes);
    } else {
        store_across(chunks, at, bytes);
    }
}

/// Stores bytes of which some lie in one chunk and some in those behind it.
#[cold]
#[inline(never)]
fn store_across(chunks: &mut [Chunk], at: usize, bytes: &[u8])
    requires even { AreOfLength 1048576 chunks.old }
    requires inside { at + length bytes.now ≤ 1048576 * length chunks.old }
    requires small { at + length bytes.now < 2 ^ 64 }
    ensures bytes { joined chunks.new ≡ splice (joined chunks.old) at bytes.now }
    ensures even { AreOfLength 1048576 chunks.new }
{
    let mut done = 0;
    while done < bytes.len() {
        let place = (at + done) % CHUNK;
        let count = (CHUNK - place).min(bytes.len() - done);
        chunks[(at + done) / CHUNK].put(place, &bytes[done..done + count]);
        done += count;
    }
}
