//! Files in memory, of which chosen calls fail.

ghost use Rattle.std.specs.Prelude.{◌≡◌, ◌≤◌, ◌↔◌, ℕ, List, length, Some, None, Err, IsTrue, IfOk, IfErr, OnOk, OnErr};
ghost use Rattle.outside.specs.Counts.{Rose};
ghost use Rattle.outside.specs.Files.{OthersStay, ToldOfRead, ToldOfWrite};
ghost use Rattle.memory_devices.specs.Calls.{no_calls, fails_next, called};

use crate::schedule::Schedule;
use crate::store::Store;
use outside::{Files, GetFault, Memory, PutFault};
use std::alloc::Global;

/// Files in memory. Their reads and writes are numbered together from 0; those whose numbers are listed fail and
/// raise the count of faults, and no others fail.
#[derive(Drop)]
pub struct MemFiles {
    store: Store,
    schedule: Schedule,
}

impl MemFiles {
    ghost use Rattle.memory_devices.specs.MemFiles.{contents_of, calls_of};

    /// No files; these calls fail.
    pub fn new(alloc: Global, failing: Vec<u64>) -> Self
        ensures empty { (name : List ℕ) → contents_of result name ≡ None }
        ensures calls { calls_of result ≡ no_calls failing.items }
    {
        MemFiles {
            store: Store::new(alloc),
            schedule: Schedule::new(failing),
        }
    }

    /// Replaces the bytes under the name. It is no call of the trait: it has no number and never fails but for
    /// want of memory, which leaves all as it was.
    pub fn put(&mut self, name: &str, bytes: &[u8]) -> Result<(), Memory>
        ensures stored { OnOk result (contents_of self.new name.now ≡ Some bytes.now) }
        ensures others { OnOk result (OthersStay (contents_of self.old) name.now (contents_of self.new)) }
        ensures err { OnErr result (contents_of self.new ≡ contents_of self.old) }
        ensures uncounted { calls_of self.new ≡ calls_of self.old }
    {
        self.store.put(name, bytes)
    }

    /// How many faults there were; it stands still at the greatest 64-bit number.
    pub fn count(&self) -> u64
        ensures { result ≡ (calls_of self.now).faults }
    {
        self.schedule.count()
    }
}

impl Files for MemFiles {
    ghost use Rattle.memory_devices.specs.MemFiles.{contents_of, calls_of};

    ghost held = { λ f. Some (contents_of f) };

    ghost faults = { λ f. (calls_of f).faults };

    fn read(&mut self, alloc: Global, name: &str, most: usize) -> Result<Vec<u8>, GetFault>
        ensures within { IfOk result (λ v. length v.items ≤ most) }
        ensures stays { Some (contents_of self.new) ≡ Some (contents_of self.old) }
        ensures tells { ToldOfRead (Some (contents_of self.old)) name.now most result }
        ensures rises { (calls_of self.old).faults ≤ (calls_of self.new).faults }
        ensures failed { IfErr result (λ e. e ≡ GetFault.Failed → Rose (calls_of self.old).faults (calls_of self.new).faults) }
        ensures fails { (result ≡ Err GetFault.Failed) ↔ IsTrue (fails_next (calls_of self.old)) }
        ensures after { calls_of self.new ≡ called (calls_of self.old) (fails_next (calls_of self.old)) }
    {
        if self.schedule.call() {
            return Err(GetFault::Failed);
        }
        self.store.read(alloc, name, most)
    }

    fn write(&mut self, _alloc: Global, name: &str, bytes: &[u8]) -> Result<(), PutFault>
        ensures tells { ToldOfWrite (Some (contents_of self.old)) name.now bytes.now (Some (contents_of self.new)) result }
        ensures unchanged { IfErr result (λ e. e ≡ PutFault.Memory → Some (contents_of self.new) ≡ Some (contents_of self.old)) }
        ensures rises { (calls_of self.old).faults ≤ (calls_of self.new).faults }
        ensures failed { IfErr result (λ e. e ≡ PutFault.Failed → Rose (calls_of self.old).faults (calls_of self.new).faults) }
        ensures err { OnErr result (contents_of self.new ≡ contents_of self.old) }
        ensures fails { (result ≡ Err PutFault.Failed) ↔ IsTrue (fails_next (calls_of self.old)) }
        ensures after { calls_of self.new ≡ called (calls_of self.old) (fails_next (calls_of self.old)) }
    {
        if self.schedule.call() {
            return Err(PutFault::Failed);
        }
        match self.store.put(name, bytes) {
            Ok(()) => Ok(()),
            Err(Memory) => Err(PutFault::Memory),
        }
    }
}
