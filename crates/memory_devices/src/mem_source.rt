//! A source in memory, of which chosen calls fail.

ghost use Rattle.std.specs.Prelude.{◌≡◌, ◌≤◌, ◌<◌, ◌↔◌, drop, length, take, vec_len, IsTrue, IsErr, IfOk, OnErr, Some};
ghost use Rattle.outside.specs.Counts.{Rose};
ghost use Rattle.outside.specs.Source.{Gave, IsAtEnd};
ghost use Rattle.memory_devices.specs.Calls.{no_calls, fails_next};
ghost use Rattle.memory_devices.specs.MemSource.{gives, after_read};

use crate::schedule::Schedule;
use outside::{Failed, Source};
use std::marker::Model;

/// A source in memory. One call gives at most a piece, and as much as fits. Its calls are numbered from 0; those
/// whose numbers are listed fail and raise the count of faults, and no others.
#[derive(Drop)]
pub struct MemSource {
    bytes: Vec<u8>,
    given: usize,
    piece: usize,
    schedule: Schedule,
}

impl Model for MemSource {
    ghost use Rattle.std.specs.Prelude.{◌≤◌, ◌<◌, drop, vec_len};
    ghost use Rattle.memory_devices.specs.MemSource.{Giving};
    ghost use Rattle.memory_devices.specs.Schedule.{calls_of};

    ghost Value = { Giving };

    ghost view = { λ s. record { left = drop s.given s.bytes.items; piece = s.piece; calls = calls_of s.schedule } };

    ghost invariant = { λ s. (s.given ≤ vec_len s.bytes) × (0 < s.piece) };
}

impl MemSource {
    /// All these bytes are left. One call gives at most `piece` bytes, and these calls fail.
    pub fn new(bytes: Vec<u8>, piece: usize, failing: Vec<u64>) -> Self
        requires { 0 < piece }
        ensures { result ≡ record { left = bytes.items; piece = piece; calls = no_calls failing.items } }
    {
        MemSource {
            bytes,
            given: 0,
            piece,
            schedule: Schedule::new(failing),
        }
    }

    /// How many faults there were; it stands still at the greatest 64-bit number.
    pub fn count(&self) -> u64
        ensures { result ≡ self.now.calls.faults }
    {
        self.schedule.count()
    }
}

impl Source for MemSource {
    ghost left = { λ s. Some s.left };

    ghost faults = { λ s. s.calls.faults };

    fn read(&mut self, piece: &mut [u8]) -> Result<usize, Failed>
        ensures within { IfOk result (λ n. n ≤ length piece.old) }
        ensures gives { IfOk result (λ n. Gave (Some self.old.left) (take n piece.new) (Some self.new.left)) }
        ensures ends { IfOk result (λ n. n ≡ 0 → 0 < length piece.old → IsAtEnd (Some self.old.left)) }
        ensures stays { OnErr result (Some self.new.left ≡ Some self.old.left) }
        ensures rises { self.old.calls.faults ≤ self.new.calls.faults }
        ensures failed { OnErr result (Rose self.old.calls.faults self.new.calls.faults) }
        ensures fails { IsErr result ↔ IsTrue (fails_next self.old.calls) }
        ensures counts { IfOk result (λ n. n ≡ gives self.old (length piece.old)) }
        ensures bytes { IfOk result (λ n. take n piece.new ≡ take n self.old.left) }
        ensures after { self.new ≡ after_read self.old (length piece.old) }
    {
        if self.schedule.call() {
            return Err(Failed);
        }
        let from = self.given;
        let count = piece.len().min(self.piece).min(self.bytes.len() - from);
        piece[..count].copy_from_slice(&self.bytes[from..from + count]);
        self.given = from + count;
        Ok(count)
    }
}
