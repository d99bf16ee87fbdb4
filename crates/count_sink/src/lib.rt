//! A sink that only counts.
//!
//! It takes every piece whole, never fails, and keeps nothing but how many bytes it took; the count stands still at
//! 2^64 - 1. So the amount of what a run writes is told without its content.
#![tactic(auto)]

ghost use Rattle.std.specs.Prelude.{◌≡◌, ◌<◌, ◌≤◌, length, take, Ok, IfOk, OnErr};
ghost use Rattle.outside.specs.Sink.{TookAll, TookNothing, Faulted};
ghost use Rattle.outside.specs.Counts.{raised};
ghost use Rattle.count_sink.specs.Counted.{counted};

use outside::{Failed, Sink};
use std::marker::Model;

/// Counts the bytes that it takes: contracts see their number.
#[derive(Drop)]
pub struct CountSink {
    bytes: u64,
}

impl Model for CountSink {
    ghost use Rattle.std.specs.Prelude.{ℕ};

    ghost Value = { ℕ };

    ghost view = { λ s. s.bytes };
}

impl CountSink {
    /// No bytes yet.
    pub fn new() -> CountSink
        ensures { result ≡ 0 }
    {
        CountSink { bytes: 0 }
    }

    /// How many bytes it took.
    pub fn bytes(&self) -> u64
        ensures { result ≡ self.now }
    {
        self.bytes
    }
}

impl Sink for CountSink {
    ghost account = { λ s. counted s };

    fn write(&mut self, piece: &[u8]) -> Result<usize, Failed>
        ensures within { IfOk result (λ n. n ≤ length piece.now) }
        ensures takes { IfOk result (λ n. TookAll (counted self.old) (counted self.new) (take n piece.now)) }
        ensures stays { OnErr result (TookNothing (counted self.old) (counted self.new)) }
        ensures rises { (counted self.old).faults ≤ (counted self.new).faults }
        ensures failed { OnErr result (Faulted (counted self.old) (counted self.new)) }
        ensures full { IfOk result (λ n. n ≡ 0 → 0 < length piece.now → Faulted (counted self.old) (counted self.new)) }
        ensures whole { result ≡ Ok (length piece.now) }
        ensures counts { self.new ≡ raised self.old (length piece.now) }
    {
        self.bytes = self.bytes.saturating_add(piece.len() as u64);
        Ok(piece.len())
    }
}
