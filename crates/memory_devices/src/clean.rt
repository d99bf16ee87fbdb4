//! Devices that never fail: their count of faults is 0 always.

ghost use Rattle.std.specs.Prelude.{◌≡◌, ◌<◌, ◌≤◌, ℕ, List, length, take, drop, vec_len, Some, None, Ok, IfOk, OnOk, OnErr};
ghost use Rattle.outside.specs.Files.{OthersStay};
ghost use Rattle.outside.specs.Sink.{TookAll, TookNothing, Faulted};
ghost use Rattle.memory_devices.specs.Silent.{silent};

use crate::store::Store;
use outside::{Failed, Files, GetFault, Memory, PutFault, Sink, Source};
use std::alloc::Global;
use std::marker::Model;

/// Files in memory without faults.
#[derive(Drop)]
pub struct CleanFiles {
    store: Store,
}

impl CleanFiles {
    ghost use Rattle.memory_devices.specs.CleanFiles.{contents_of};

    /// No files.
    pub fn new(alloc: Global) -> Self
        ensures { (name : List ℕ) → contents_of result name ≡ None }
    {
        CleanFiles {
            store: Store::new(alloc),
        }
    }

    /// Replaces the bytes under the name; want of memory leaves all as it was.
    pub fn put(&mut self, name: &str, bytes: &[u8]) -> Result<(), Memory>
        ensures stored { OnOk result (contents_of self.new name.now ≡ Some bytes.now) }
        ensures others { OnOk result (OthersStay (contents_of self.old) name.now (contents_of self.new)) }
        ensures err { OnErr result (contents_of self.new ≡ contents_of self.old) }
    {
        self.store.put(name, bytes)
    }
}

impl Files for CleanFiles {
    ghost use Rattle.memory_devices.specs.CleanFiles.{contents_of};

    ghost held = { λ f. Some (contents_of f) };

    ghost faults = { λ _. 0 };

    fn read(&mut self, alloc: Global, name: &str, most: usize) -> Result<Vec<u8>, GetFault> {
        self.store.read(alloc, name, most)
    }

    fn write(&mut self, _alloc: Global, name: &str, bytes: &[u8]) -> Result<(), PutFault> {
        match self.store.put(name, bytes) {
            Ok(()) => Ok(()),
            Err(Memory) => Err(PutFault::Memory),
        }
    }
}

/// A source in memory without faults.
#[derive(Drop)]
pub struct CleanSource {
    bytes: Vec<u8>,
    given: usize,
}

impl Model for CleanSource {
    ghost Value = { List ℕ };

    ghost view = { λ s. drop s.given s.bytes.items };

    ghost invariant = { λ s. s.given ≤ vec_len s.bytes };
}

impl CleanSource {
    /// All these bytes are left.
    pub fn new(bytes: Vec<u8>) -> Self
        ensures { result ≡ bytes.items }
    {
        CleanSource { bytes, given: 0 }
    }
}

impl Source for CleanSource {
    ghost left = { λ s. Some s };

    ghost faults = { λ _. 0 };

    fn read(&mut self, piece: &mut [u8]) -> Result<usize, Failed> {
        let from = self.given;
        let count = piece.len().min(self.bytes.len() - from);
        piece[..count].copy_from_slice(&self.bytes[from..from + count]);
        self.given = from + count;
        Ok(count)
    }
}

/// A sink without faults. It takes every piece whole and tells nothing.
#[derive(Clone, Copy)]
pub struct CleanSink;

impl CleanSink {
    /// It takes all.
    pub fn new() -> Self {
        CleanSink
    }
}

impl Sink for CleanSink {
    ghost account = { λ _. silent };

    fn write(&mut self, piece: &[u8]) -> Result<usize, Failed>
        ensures within { IfOk result (λ n. n ≤ length piece.now) }
        ensures takes { IfOk result (λ n. TookAll silent silent (take n piece.now)) }
        ensures stays { OnErr result (TookNothing silent silent) }
        ensures rises { silent.faults ≤ silent.faults }
        ensures failed { OnErr result (Faulted silent silent) }
        ensures full { IfOk result (λ n. n ≡ 0 → 0 < length piece.now → Faulted silent silent) }
        ensures whole { result ≡ Ok (length piece.now) }
    {
        Ok(piece.len())
    }
}
