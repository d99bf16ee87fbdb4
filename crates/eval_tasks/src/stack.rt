//! A stack.

ghost use Rattle.std.specs.Prelude.{List, reverse};

use items::Items;
use outside::Memory;
use std::alloc::Global;
use std::marker::Model;

/// A stack: contracts see its items, the last first.
#[derive(Drop)]
pub struct Stack<T> {
    items: Vec<T>,
}

impl<T> Model for Stack<T> {
    ghost Value = { List T };

    ghost view = { λ s. reverse s.items.items };
}

impl<T: Drop> Stack<T> {
    ghost use Rattle.std.specs.Prelude.{◌≡◌, [], ◌∷◌, length, reverse, take, drop, IfOk, OnOk, OnErr};
    ghost use Rattle.eval_tasks.specs.Stacks.{Popped};

    /// No items; takes no memory.
    pub fn new(alloc: Global) -> Stack<T>
        ensures { result ≡ [] }
    {
        Stack {
            items: Vec::new(alloc),
        }
    }

    /// How many items there are.
    pub fn len(&self) -> usize
        ensures { result ≡ length self.now }
    {
        self.items.len()
    }

    /// One more.
    pub fn push(&mut self, item: T) -> Result<(), Memory>
        ensures ok { OnOk result (self.new ≡ item ∷ self.old) }
        ensures err { OnErr result (self.new ≡ self.old) }
    {
        self.items.push(item)?;
        Ok(())
    }

    /// The last one.
    pub fn pop(&mut self) -> Option<T>
        ensures { Popped self.old result self.new }
    {
        self.items.pop()
    }

    /// The last so many, the first of them first.
    pub fn take_last(&mut self, count: usize) -> Result<Items<T>, Memory>
        ensures ok { IfOk result (λ last. (last ≡ reverse (take count self.old)) × (self.new ≡ drop count self.old)) }
        ensures err { OnErr result (self.new ≡ self.old) }
    {
        let length = self.items.len();
        let kept = length.saturating_sub(count);
        Ok(Items::from_vec(self.items.split_off(kept)?))
    }
}
