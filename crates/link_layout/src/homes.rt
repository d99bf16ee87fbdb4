//! The homes that copies store or load, and their ranks.

ghost use Rattle.std.specs.Prelude.{◌≡◌, ◌≤◌, ℕ, List, [], ◌==◌, false, map, length, IfOk, OnOk};
ghost use Rattle.placed_code.specs.Results.{with_home, with_copies, rank_in};
ghost use Rattle.link_words.specs.Fields.{entry_in};
ghost use Rattle.link_layout.specs.Spots.{spot_of, copy_of, rank_behind};

use crate::copies::{Copy, Spot};
use items::Items;
use std::alloc::{AllocError, Global};
use std::marker::Model;
use value_sets::ValueSet;

/// The values with a home, rising, which contracts see as their list. The rank of a value is its place there.
#[derive(Drop)]
pub struct Ranks {
    values: Items<u32>,
    /// The number behind each value's rank, by value, up to the highest one with a home; 0 for one that has none.
    behind: Vec<usize>,
}

impl Model for Ranks {
    ghost use Rattle.std.specs.Prelude.{◌≡◌, ℕ, List};
    ghost use Rattle.placed_code.specs.Results.{rank_in};
    ghost use Rattle.link_words.specs.Fields.{entry_in};
    ghost use Rattle.link_layout.specs.Spots.{rank_behind};

    ghost Value = { List ℕ };

    ghost view = { λ s. s.values };

    ghost invariant = { λ s. (v : ℕ) → rank_behind (entry_in s.behind.items v) ≡ rank_in s.values v };
}

impl Ranks {
    /// The homes of all copies of a procedure. Takes time in proportion to the copies and the highest value with a home.
    pub fn of(alloc: Global, copies: &[Copy]) -> Result<Ranks, AllocError>
        ensures { IfOk result (λ homes. homes ≡ with_copies (map copy_of copies.now) []) }
    {
        let mut homes = ValueSet::new(alloc);
        add_homes(&mut homes, copies)?;
        Ranks::of_values(alloc, &homes)
    }

    /// The homes of values.
    pub fn of_values(alloc: Global, homed: &ValueSet) -> Result<Ranks, AllocError>
        ensures { IfOk result (λ homes. homes ≡ homed.now) }
    {
        let values = homed.list(alloc)?;
        let behind = behind_ranks(alloc, values.as_slice())?;
        Ok(Ranks { values, behind })
    }

    /// The rank of a value's home, where it has one. Takes constant time.
    pub fn rank(&self, value: u32) -> Option<usize>
        ensures { result ≡ rank_in self.now value }
    {
        match self.behind.get(value as usize) {
            Some(behind) => behind.checked_sub(1),
            None => None,
        }
    }

    /// How many homes there are.
    pub fn count(&self) -> usize
        ensures { result ≡ length self.now }
    {
        self.values.len()
    }
}

/// Adds the homes of copies to those of the copies behind them, each in constant time.
pub fn add_homes(homes: &mut ValueSet, copies: &[Copy]) -> Result<(), AllocError>
    ensures { OnOk result (homes.new ≡ with_copies (map copy_of copies.now) homes.old) }
{
    let mut i = copies.len();
    while i > 0 {
        i -= 1;
        add(homes, copies[i].from)?;
        add(homes, copies[i].to)?;
    }
    Ok(())
}

/// Adds a spot's home, where it is one.
fn add(homes: &mut ValueSet, spot: Spot) -> Result<(), AllocError>
    ensures { OnOk result (homes.new ≡ with_home (spot_of spot) homes.old) }
{
    match spot {
        Spot::Home(value) => homes.insert(value),
        _ => Ok(()),
    }
}

/// The numbers behind the ranks of homes, by value.
fn behind_ranks(alloc: Global, homes: &[u32]) -> Result<Vec<usize>, AllocError>
    ensures { IfOk result (λ behind. (v : ℕ) → rank_behind (entry_in behind.items v) ≡ rank_in homes.now v) }
{
    let mut behind = Vec::new(alloc);
    let mut i = homes.len();
    while i > 0 {
        put(&mut behind, homes[i - 1], i)?;
        i -= 1;
    }
    Ok(behind)
}

/// A number stands in a list by value.
fn put(numbers: &mut Vec<usize>, value: u32, number: usize) -> Result<(), AllocError>
    ensures one { OnOk result (entry_in numbers.new.items value ≡ number) }
    ensures others { (v : ℕ) → (value == v) ≡ false → entry_in numbers.new.items v ≡ entry_in numbers.old.items v }
{
    let at = value as usize;
    grow(numbers, at + 1)?;
    numbers[at] = number;
    Ok(())
}

/// Zeros come behind the numbers of a list, up to so many.
fn grow(numbers: &mut Vec<usize>, count: usize) -> Result<(), AllocError>
    ensures same { (v : ℕ) → entry_in numbers.new.items v ≡ entry_in numbers.old.items v }
    ensures room { OnOk result (count ≤ length numbers.new.items) }
{
    if count > numbers.len() {
        numbers.resize(count, 0)?;
    }
    Ok(())
}
