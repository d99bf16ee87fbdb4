//! The last stamp that each of some numbers got.

ghost use Rattle.std.specs.Prelude.{◌≡◌, IfOk, None, replicate};
ghost use Rattle.ssa_valid.specs.Order.{is_stamped, stamped, is_new, joined};

use std::alloc::{AllocError, Global};
use std::marker::Model;

/// For each of some numbers the stamp that it got last, so that no stamp needs to be taken back.
#[derive(Drop)]
pub(crate) struct Stamps {
    last: Vec<Option<u32>>,
}

impl Model for Stamps {
    ghost use Rattle.std.specs.Prelude.{ℕ, List, Option};

    ghost Value = { List (Option ℕ) };

    ghost view = { λ s. s.last.items };
}

impl Stamps {
    /// No stamps on so many numbers.
    pub(crate) fn new(alloc: Global, count: usize) -> Result<Stamps, AllocError>
        ensures { IfOk result (λ stamps. stamps ≡ replicate count None) }
    {
        Ok(Stamps {
            last: vec![in alloc; None; count]?,
        })
    }

    /// Whether a number's last stamp is this one.
    pub(crate) fn has(&self, number: u32, stamp: u32) -> bool
        ensures { result ≡ is_stamped self.now number stamp }
    {
        match self.last.get(number as usize) {
            Some(Some(last)) => *last == stamp,
            _ => false,
        }
    }

    /// Stamps a number, if it is there.
    pub(crate) fn put(&mut self, number: u32, stamp: u32)
        ensures { self.new ≡ stamped self.old number stamp }
    {
        if (number as usize) < self.last.len() {
            self.last[number as usize] = Some(stamp);
        }
    }

    /// Stamps a number, if it is there and hasn't this stamp; says whether that is so.
    pub(crate) fn join(&mut self, number: u32, stamp: u32) -> bool
        ensures joins { result ≡ is_new self.old number stamp }
        ensures stamps { self.new ≡ joined self.old number stamp }
    {
        if number as usize >= self.last.len() || self.has(number, stamp) {
            return false;
        }
        self.last[number as usize] = Some(stamp);
        true
    }
}
