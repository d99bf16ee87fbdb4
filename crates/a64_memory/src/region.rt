//! A region of memory.

ghost use Rattle.std.specs.Prelude.{◌≡◌, ◌+◌, ◌-◌, ◌<◌, ◌≤◌, ◌^◌, ◌%◌, length, replicate, true, IfOk, [], ◌∷◌};
ghost use Rattle.std.specs.Int.{from_le_bytes, to_le_bytes, w64};
ghost use Rattle.a64_memory.specs.Bytes.{slab};
ghost use Rattle.a64_memory.specs.Memory.{lies, written};

use crate::chunk::{CHUNK, Chunk};
use crate::chunks::{byte_in, load8_in, store_in, zero_chunks};
use std::alloc::{AllocError, Global};
use std::marker::Model;

/// Bytes at the addresses from a base on. Memory for all of them is reserved when the region is made, and is touched
/// where bytes are stored: what nothing was stored into is 0.
#[derive(Drop)]
pub struct Region {
    base: u64,
    size: usize,
    chunks: Vec<Chunk>,
}

impl Model for Region {
    ghost use Rattle.std.specs.Prelude.{take};
    ghost use Rattle.a64_memory.specs.Memory.{Area};
    ghost use Rattle.a64_memory.specs.Chunks.{joined, Chunked};

    ghost Value = { Area };

    ghost view = { λ r. record { base = r.base; bytes = take r.size (joined r.chunks.items) } };

    ghost invariant = { λ r. Chunked 1048576 r.size r.chunks.items };
}

impl Region {
    /// So many zeros.
    pub fn zeros(alloc: Global, base: u64, size: usize) -> Result<Region, AllocError>
        ensures { IfOk result (λ r. r ≡ record { base = base; bytes = replicate size 0 }) }
    {
        let chunks = zero_chunks(alloc, size.div_ceil(CHUNK))?;
        Ok(Region { base, size, chunks })
    }

    /// Whether the `count` bytes at the address lie in the region.
    #[inline]
    pub fn has(&self, address: u64, count: u64) -> bool
        ensures { result ≡ lies self.now address count }
    {
        if address < self.base {
            return false;
        }
        let at = address - self.base;
        let size = self.size as u64;
        at <= size && count <= size - at
    }

    /// The eight bytes at the address as a number, lowest first.
    #[inline]
    pub fn load8(&self, address: u64) -> u64
        requires { lies self.now address 8 ≡ true }
        ensures { result ≡ from_le_bytes w64 (slab self.now.bytes (address - self.now.base) 8) }
    {
        load8_in(&self.chunks, (address - self.base) as usize)
    }

    /// The byte at the address.
    #[inline]
    pub fn byte(&self, address: u64) -> u8
        requires { lies self.now address 1 ≡ true }
        ensures { slab self.now.bytes (address - self.now.base) 1 ≡ result ∷ [] }
    {
        byte_in(&self.chunks, (address - self.base) as usize)
    }

    /// Stores bytes at the address.
    #[inline]
    pub fn store(&mut self, address: u64, bytes: &[u8])
        requires inside { lies self.old address (length bytes.now) ≡ true }
        requires some { 0 < length bytes.now }
        ensures { self.new ≡ written self.old address bytes.now }
    {
        let at = (address - self.base) as usize;
        store_in(&mut self.chunks, at, bytes);
    }
}
