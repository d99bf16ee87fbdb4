//! A sink in memory with room for so many bytes, of which chosen calls fail.

ghost use Rattle.std.specs.Prelude.{◌≡◌, ◌≤◌, ◌<◌, ◌↔◌, [], length, take, IsTrue, IsErr, IfOk, OnErr};
ghost use Rattle.outside.specs.Sink.{TookAll, TookNothing, Faulted};
ghost use Rattle.memory_devices.specs.Calls.{no_calls, fails_next};
ghost use Rattle.memory_devices.specs.MemSink.{account_of, takes, after_write};

use crate::schedule::Schedule;
use outside::{Failed, Memory, Sink};
use std::alloc::Global;
use std::marker::Model;

/// A sink in memory. One call takes at most a piece, and as much as there is room for; when the room is used up it
/// takes 0 and raises the count of faults. Its calls are numbered from 0; those whose numbers are listed fail and
/// raise the count, and no others fail.
#[derive(Drop)]
pub struct MemSink {
    bytes: Vec<u8>,
    room: usize,
    piece: usize,
    schedule: Schedule,
}

impl Model for MemSink {
    ghost use Rattle.std.specs.Prelude.{◌≤◌, ◌<◌, vec_len, vec_capacity};
    ghost use Rattle.memory_devices.specs.MemSink.{Taking};
    ghost use Rattle.memory_devices.specs.Schedule.{calls_of};

    ghost Value = { Taking };

    ghost view = { λ s. record { taken = s.bytes.items; room = s.room; piece = s.piece; calls = calls_of s.schedule } };

    ghost invariant = { λ s. (s.room ≤ vec_capacity s.bytes) × (vec_len s.bytes ≤ s.room) × (0 < s.piece) };
}

impl MemSink {
    /// An empty sink with this room, whose calls take at most `piece` bytes, and of which these calls fail.
    pub fn new(alloc: Global, room: usize, piece: usize, failing: Vec<u64>) -> Result<Self, Memory>
        requires { 0 < piece }
        ensures { IfOk result (λ s. s ≡ record { taken = []; room = room; piece = piece; calls = no_calls failing.items }) }
    {
        let bytes = Vec::with_capacity(alloc, room)?;
        Ok(MemSink {
            bytes,
            room,
            piece,
            schedule: Schedule::new(failing),
        })
    }

    /// The bytes that it took, lent.
    pub fn bytes(&self) -> &[u8]
        ensures { result.now ≡ self.now.taken }
    {
        self.bytes.as_slice()
    }

    /// How many faults there were; it stands still at the greatest 64-bit number.
    pub fn count(&self) -> u64
        ensures { result ≡ self.now.calls.faults }
    {
        self.schedule.count()
    }
}

impl Sink for MemSink {
    ghost account = { account_of };

    fn write(&mut self, piece: &[u8]) -> Result<usize, Failed>
        ensures within { IfOk result (λ n. n ≤ length piece.now) }
        ensures takes { IfOk result (λ n. TookAll (account_of self.old) (account_of self.new) (take n piece.now)) }
        ensures stays { OnErr result (TookNothing (account_of self.old) (account_of self.new)) }
        ensures rises { self.old.calls.faults ≤ self.new.calls.faults }
        ensures failed { OnErr result (Faulted (account_of self.old) (account_of self.new)) }
        ensures full { IfOk result (λ n. n ≡ 0 → 0 < length piece.now → Faulted (account_of self.old) (account_of self.new)) }
        ensures fails { IsErr result ↔ IsTrue (fails_next self.old.calls) }
        ensures counts { IfOk result (λ n. n ≡ takes self.old (length piece.now)) }
        ensures after { self.new ≡ after_write self.old piece.now }
    {
        if self.schedule.call() {
            return Err(Failed);
        }
        let count = piece
            .len()
            .min(self.piece)
            .min(self.room - self.bytes.len());
        if count == 0 {
            if !piece.is_empty() {
                self.schedule.fault();
            }
            return Ok(0);
        }
        match self.bytes.extend_from_slice(&piece[..count]) {
            Ok(()) => Ok(count),
            Err(_) => unreachable!(),
        }
    }
}
