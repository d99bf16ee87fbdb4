//! A list that is made from its end on.

ghost use Rattle.std.specs.Prelude.{◌≡◌, List, [], ◌∷◌, ◌++◌, IfOk, OnOk};
ghost use Rattle.loc_back.specs.Marks.{put_homes};

use lir_core::{Items, Places};
use std::alloc::{AllocError, AllocFailed, Global};
use std::marker::Model;

/// Items in order, which are added in front; contracts see the list. They are kept from the last one on, so that the first
/// one stands at the end of a vector.
#[derive(Drop)]
pub struct FrontItems<T> {
    from_last: Vec<T>,
}

impl<T> Model for FrontItems<T> {
    ghost use Rattle.std.specs.Prelude.{List, reverse};

    ghost Value = { List T };

    ghost view = { λ s. reverse s.from_last.items };
}

impl<T> FrontItems<T> {
    /// No items; takes no memory.
    pub fn new(alloc: Global) -> FrontItems<T>
        ensures { result ≡ [] }
    {
        FrontItems {
            from_last: Vec::new(alloc),
        }
    }

    /// No items, and memory for so many.
    pub fn with_room(alloc: Global, count: usize) -> Result<FrontItems<T>, AllocError>
        ensures { IfOk result (λ items. items ≡ []) }
    {
        Ok(FrontItems {
            from_last: Vec::with_capacity(alloc, count)?,
        })
    }

    /// Adds an item in front.
    pub fn push_front(&mut self, item: T) -> Result<(), AllocFailed<T>>
        ensures { OnOk result (self.new ≡ item ∷ self.old) }
    {
        self.from_last.push(item)
    }

    /// The items as a list.
    pub fn into_items(self) -> Items<T>
        ensures { result ≡ self }
    {
        let FrontItems { mut from_last } = self;
        from_last.reverse();
        Items::from_vec(from_last)
    }

    /// Gives the items as a list that has just room for them, and is empty then, with its memory kept.
    pub fn take_items(&mut self, alloc: Global) -> Result<Items<T>, AllocError>
    where
        T: Drop,
        ensures items { IfOk result (λ items. items ≡ self.old) }
        ensures left { OnOk result (self.new ≡ []) }
    {
        self.from_last.reverse();
        let mut items = Vec::with_capacity(alloc, self.from_last.len())?;
        items.append(&mut self.from_last)?;
        Ok(Items::from_vec(items))
    }
}

impl FrontItems<Places> {
    /// Gives homes to the places at an index, where there are some.
    pub(crate) fn put_homes(&mut self, at: usize, homed: Items<u32>)
        ensures { self.new ≡ put_homes at homed self.old }
    {
        let count = self.from_last.len();
        if at < count {
            self.from_last[count - 1 - at].homed = homed;
        }
    }
}
