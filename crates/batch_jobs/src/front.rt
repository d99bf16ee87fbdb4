//! The front of what a run writes.

ghost use Rattle.std.specs.Prelude.{◌≡◌, ◌<◌, ◌≤◌, [], length, IfOk};
ghost use Rattle.memory_devices.specs.MemSink.{account_of};

use memory_devices::MemSink;
use outside::{Failed, Memory, Sink};
use std::alloc::Global;

/// The most bytes that a reply has.
pub(crate) const MOST_WRITTEN: usize = 65_536;

/// The most bytes that a front has: one more, which tells that more was written than a reply has.
const MOST_KEPT: usize = MOST_WRITTEN + 1;

// A sink that takes the front of what is written. It fails only where its room is used up.
#[derive(Drop)]
pub(crate) struct Front {
    sink: MemSink,
    ghost room: { (sink.room ≡ 65537) × (sink.piece ≡ 65537) × (sink.calls.failing ≡ []) × (length sink.taken ≤ 65537) },
    ghost full: { 0 < sink.calls.faults → length sink.taken ≡ 65537 },
}

impl Front {
    // Nothing was written.
    pub(crate) fn new(alloc: Global) -> Result<Front, Memory>
        ensures { IfOk result (λ front. front.sink.taken ≡ []) }
    {
        let sink = MemSink::new(alloc, MOST_KEPT, MOST_KEPT, Vec::new(alloc))?;
        Ok(Front { sink })
    }

    // The bytes that it took, lent.
    pub(crate) fn bytes(&self) -> &[u8]
        ensures { result.now ≡ self.now.sink.taken }
    {
        self.sink.bytes()
    }
}

impl Sink for Front {
    ghost account = { λ front. account_of front.sink };

    fn write(&mut self, piece: &[u8]) -> Result<usize, Failed> {
        self.sink.write(piece)
    }
}
