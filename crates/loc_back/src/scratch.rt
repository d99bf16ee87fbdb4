//! A list whose memory is kept.

ghost use Rattle.std.specs.Prelude.{◌≡◌, [], ◌∷◌, ◌++◌, OnOk};

use smallvec::SmallVec;
use std::alloc::{AllocFailed, Global};
use std::marker::Model;

/// Items in order, which contracts see: up to eight take no memory, and memory is kept when they are let go.
#[derive(Drop)]
pub struct Scratch<T> {
    items: SmallVec<T, 8>,
}

impl<T> Model for Scratch<T> {
    ghost use Rattle.std.specs.Prelude.{List};

    ghost Value = { List T };

    ghost view = { λ s. s.items.items };
}

impl<T: Default + Drop> Scratch<T> {
    /// No items.
    pub fn new(alloc: Global) -> Scratch<T>
        ensures { result ≡ [] }
    {
        Scratch {
            items: SmallVec::new(alloc),
        }
    }

    /// Adds an item at the end.
    pub fn push(&mut self, item: T) -> Result<(), AllocFailed<T>>
        ensures { OnOk result (self.new ≡ self.old ++ item ∷ []) }
    {
        self.items.push(item)
    }

    /// Lets all items go.
    pub fn clear(&mut self)
        ensures { self.new ≡ [] }
    {
        self.items.clear();
    }

    /// The items, lent.
    pub fn as_slice(&self) -> &[T]
        ensures { result.now ≡ self.now }
    {
        self.items.as_slice()
    }
}
