//! Bytes under names, in memory: the store of the files in memory.

ghost use Rattle.std.specs.Prelude.{◌≡◌, ◌≢◌, ◌≤◌, ℕ, List, length, Some, None, IfOk, OnOk, OnErr, Err};
ghost use Rattle.outside.specs.Files.{ReadOf, OthersStay};
ghost use Rattle.memory_devices.specs.Store.{held_of};

use outside::{GetFault, Memory};
use std::alloc::Global;
use std::collections::BTreeMap;

/// Bytes under names.
#[derive(Drop)]
pub(crate) struct Store {
    alloc: Global,
    files: BTreeMap<String, Vec<u8>>,
}

impl Store {
    /// It holds nothing.
    pub(crate) fn new(alloc: Global) -> Self
        ensures { (name : List ℕ) → held_of result name ≡ None }
    {
        Store {
            alloc,
            files: BTreeMap::new(alloc),
        }
    }

    /// A copy of the bytes under the name, where they are at most `most`.
    pub(crate) fn read(&self, alloc: Global, name: &str, most: usize) -> Result<Vec<u8>, GetFault>
        ensures within { IfOk result (λ v. length v.items ≤ most) }
        ensures tells { ReadOf (held_of self.now name.now) most result }
        ensures sound { result ≢ Err GetFault.Failed }
    {
        let Some(bytes) = self.files.get(name) else {
            return Err(GetFault::NoSuchFile);
        };
        if bytes.len() > most {
            return Err(GetFault::TooLong);
        }
        match Vec::from_slice(alloc, bytes.as_slice()) {
            Ok(copy) => Ok(copy),
            Err(_) => Err(GetFault::Memory),
        }
    }

    /// Replaces the bytes under the name, and leaves the others.
    pub(crate) fn put(&mut self, name: &str, bytes: &[u8]) -> Result<(), Memory>
        ensures stored { OnOk result (held_of self.new name.now ≡ Some bytes.now) }
        ensures others { OnOk result (OthersStay (held_of self.old) name.now (held_of self.new)) }
        ensures err { OnErr result (held_of self.new ≡ held_of self.old) }
    {
        let key = String::from_str(self.alloc, name)?;
        let copy = Vec::from_slice(self.alloc, bytes)?;
        self.files.insert(key, copy)?;
        Ok(())
    }
}
