//! Named files: what their calls answer, and what they tell.

ghost use Rattle.std.specs.Prelude.{◌≡◌, ℕ, ◌≤◌, length, Option, IfOk, IfErr};
ghost use Rattle.outside.specs.Counts.{Rose};
ghost use Rattle.outside.specs.Files.{Held, ToldOfRead, ToldOfWrite};

use std::alloc::Global;
use thiserror::Error;

/// Why a file wasn't read.
#[derive(Clone, Copy, Debug, Error)]
pub enum GetFault {
    /// The name isn't held.
    #[error("no such file")]
    NoSuchFile,
    /// More bytes are held than were asked for at most.
    #[error("the file is too long")]
    TooLong,
    /// The device failed.
    #[error("the device failed")]
    Failed,
    /// There was no memory for the bytes.
    #[error("out of memory")]
    Memory,
}

/// Why a file wasn't written.
#[derive(Clone, Copy, Debug, Error)]
pub enum PutFault {
    /// The device failed; that name may hold anything now.
    #[error("the device failed")]
    Failed,
    /// There was no memory.
    #[error("out of memory")]
    Memory,
}

/// Named files.
pub trait Files {
    /// What each name holds, where it is told.
    ghost held: { Self → Option Held };

    /// How many faults there were.
    ghost faults: { Self → ℕ };

    /// The bytes of a file of at most `most` bytes. A read leaves what is held as it is.
    fn read(&mut self, alloc: Global, name: &str, most: usize) -> Result<Vec<u8>, GetFault>
        ensures within { IfOk result (λ v. length v.items ≤ most) }
        ensures stays { held self.new ≡ held self.old }
        ensures tells { ToldOfRead (held self.old) name.now most result }
        ensures rises { faults self.old ≤ faults self.new }
        ensures failed { IfErr result (λ e. e ≡ GetFault.Failed → Rose (faults self.old) (faults self.new)) };

    /// Replaces the bytes under the name, and leaves every other name as it is. After `Failed` that one name
    /// may hold anything; after `Memory` all is as it was.
    fn write(&mut self, alloc: Global, name: &str, bytes: &[u8]) -> Result<(), PutFault>
        ensures tells { ToldOfWrite (held self.old) name.now bytes.now (held self.new) result }
        ensures unchanged { IfErr result (λ e. e ≡ PutFault.Memory → held self.new ≡ held self.old) }
        ensures rises { faults self.old ≤ faults self.new }
        ensures failed { IfErr result (λ e. e ≡ PutFault.Failed → Rose (faults self.old) (faults self.new)) };
}
