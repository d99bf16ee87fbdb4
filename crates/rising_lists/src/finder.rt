//! Numbers looked up in a list.

ghost use Rattle.std.specs.Prelude.{◌≡◌};
ghost use Rattle.block_runs.specs.Live.{has};
ghost use Rattle.lir_core.specs.Spots.{IsRising};
ghost use Rattle.rising_lists.specs.Rising.{rank};

use crate::rising::{is_at, is_past};
use std::marker::Model;

/// A list of numbers, which contracts see, and where the last one that was looked up stands or would stand.
#[derive(Drop)]
pub struct Finder<'a> {
    numbers: &'a [u32],
    at: usize,
}

impl<'a> Model for Finder<'a> {
    ghost use Rattle.std.specs.Prelude.{ℕ, List};

    ghost Value = { List ℕ };

    ghost view = { λ f. f.numbers.now };
}

impl Finder<'_> {
    /// Looks numbers up in a list.
    pub fn new(numbers: &[u32]) -> Finder<'_>
        ensures { result ≡ numbers.now }
    {
        Finder { numbers, at: 0 }
    }

    /// Whether a number is in the list, where that rises. For numbers that rise the list is passed once.
    pub fn has(&mut self, number: u32) -> bool
        ensures found { IsRising self.old → result ≡ has self.old number }
        ensures list { self.new ≡ self.old }
    {
        self.at = reach(self.numbers, self.at, number);
        is_at(self.numbers, self.at, number)
    }
}

// Where a number stands in a rising list, or would stand, sought from an index on, or from the beginning where that is past
// it.
fn reach(numbers: &[u32], from: usize, number: u32) -> usize
    ensures { IsRising numbers.now → result ≡ rank number numbers.now }
{
    let from = if is_past(numbers, from, number) {
        0
    } else {
        from
    };
    for at in from..numbers.len() {
        if numbers[at] >= number {
            return at;
        }
    }
    numbers.len()
}
