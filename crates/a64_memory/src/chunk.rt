//! A part of a region.

ghost use Rattle.std.specs.Prelude.{◌≡◌, ◌+◌, ◌<◌, ◌≤◌, [], length, vec_capacity, slice_index_or, IfOk, IfSome};
ghost use Rattle.std.specs.Int.{from_le_bytes, w64};
ghost use Rattle.a64_memory.specs.Bytes.{splice, slab};
ghost use Rattle.a64_memory.specs.Chunks.{padded};

use std::alloc::{AllocError, Global};
use std::marker::Model;

/// How many bytes a chunk has.
pub const CHUNK: usize = 1_048_576;

/// How many bytes are filled at once.
const PAGE: usize = 4096;

/// `CHUNK` bytes. Memory for all of them is reserved; those up to the last page that was stored into are there, and
/// the others are 0.
#[derive(Drop)]
pub struct Chunk {
    bytes: Vec<u8>,
}

impl Model for Chunk {
    ghost use Rattle.std.specs.Prelude.{ℕ, ◌≤◌, List, length, vec_capacity};
    ghost use Rattle.a64_memory.specs.Chunks.{padded};

    ghost Value = { List ℕ };

    ghost view = { λ c. padded 1048576 c.bytes.items };

    ghost invariant = { λ c. (length c.bytes.items ≤ 1048576) × (1048576 ≤ vec_capacity c.bytes) };
}

impl Chunk {
    /// Zeros.
    pub fn zeros(alloc: Global) -> Result<Self, AllocError>
        ensures { IfOk result (λ c. c ≡ padded 1048576 []) }
    {
        let bytes = Vec::with_capacity(alloc, CHUNK)?;
        Ok(Chunk { bytes })
    }

    /// The byte at a place.
    pub fn byte(&self, at: usize) -> u8
        ensures { result ≡ slice_index_or self.now at 0 }
    {
        if at < self.bytes.len() {
            self.bytes[at]
        } else {
            0
        }
    }

    /// The eight bytes from a place on as a number, lowest first, where they are all there.
    #[inline]
    pub fn filled8(&self, at: usize) -> Option<u64>
        requires { at < 1048576 }
        ensures { IfSome result (λ number. number ≡ from_le_bytes w64 (slab self.now at 8)) }
    {
        if at + 8 > self.bytes.len() {
            return None;
        }
        Some(number_at(&self.bytes, at))
    }

    /// Stores bytes from a place on.
    #[inline]
    pub fn put(&mut self, at: usize, bytes: &[u8])
        requires { at + length bytes.now ≤ 1048576 }
        ensures { self.new ≡ splice self.old at bytes.now }
    {
        fill(&mut self.bytes, at + bytes.len());
        overwrite(&mut self.bytes, at, bytes);
    }
}

/// Bytes in the place of those from a place on.
#[inline]
fn overwrite(bytes: &mut [u8], at: usize, new: &[u8])
    requires { at + length new.now ≤ length bytes.old }
    ensures { bytes.new ≡ splice bytes.old at new.now }
{
    bytes[at..at + new.len()].copy_from_slice(new);
}

/// The eight bytes from a place on as a number, lowest first.
#[inline]
fn number_at(bytes: &[u8], at: usize) -> u64
    requires { at + 8 ≤ length bytes.now }
    ensures { result ≡ from_le_bytes w64 (slab bytes.now at 8) }
{
    let b = &bytes[at..at + 8];
    u64::from_le_bytes([b[0], b[1], b[2], b[3], b[4], b[5], b[6], b[7]])
}

/// Fills with zeros, so far that `end` bytes are there. It takes no memory.
#[inline]
fn fill(bytes: &mut Vec<u8>, end: usize)
    requires end { end ≤ 1048576 }
    requires below { length bytes.old.items ≤ 1048576 }
    requires room { 1048576 ≤ vec_capacity bytes.old }
    ensures same { padded 1048576 bytes.new.items ≡ padded 1048576 bytes.old.items }
    ensures filled { end ≤ length bytes.new.items }
    ensures below { length bytes.new.items ≤ 1048576 }
    ensures room { 1048576 ≤ vec_capacity bytes.new }
{
    if end > bytes.len() {
        fill_pages(bytes, end);
    }
}

/// Fills with zeros up to the end of a page.
#[cold]
#[inline(never)]
fn fill_pages(bytes: &mut Vec<u8>, end: usize)
    requires end { end ≤ 1048576 }
    requires short { length bytes.old.items < end }
    requires room { 1048576 ≤ vec_capacity bytes.old }
    ensures same { padded 1048576 bytes.new.items ≡ padded 1048576 bytes.old.items }
    ensures filled { end ≤ length bytes.new.items }
    ensures below { length bytes.new.items ≤ 1048576 }
    ensures room { 1048576 ≤ vec_capacity bytes.new }
{
    let pages = end.div_ceil(PAGE);
    let _ = bytes.resize(PAGE * pages, 0);
}
