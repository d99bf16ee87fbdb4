//! Ranges in an ordered map.

ghost use Rattle.std.specs.Prelude.{◌≡◌, ℤ, List, [], ◌∷◌, ◌&&◌, not, true, false, int_le, IfOk, OnErr, option_copied};
ghost use Rattle.ob_judge.specs.Cases.{overlaps as overlaps_in};
ghost use Rattle.check_statements.specs.ranges.Ranges.{AreRanges, last_within};

use std::alloc::{AllocError, Global};
use std::collections::BTreeMap;
use std::marker::Model;

/// Ranges from one number up to another, no two of which overlap.
#[derive(Drop)]
pub struct LabelRanges {
    ranges: BTreeMap<i64, i64>,
}

impl Model for LabelRanges {
    ghost use Rattle.std.specs.Prelude.{ℤ, List};

    ghost Value = { List (ℤ × ℤ) };

    ghost view = { λ s. s.ranges.entries };
}

// A range that ends here goes up to this number at least.
fn reaches(end: &i64, low: i64) -> bool
    ensures { result ≡ int_le low end.now }
{
    low <= *end
}

impl LabelRanges {
    /// No ranges; takes no memory.
    pub fn new(alloc: Global) -> LabelRanges
        ensures { AreRanges result [] }
    {
        LabelRanges {
            ranges: BTreeMap::new(alloc),
        }
    }

    // Where the last range ends that begins at this number or before.
    fn last_end(&self, high: i64) -> Option<&i64>
        ensures { option_copied result ≡ last_within high self.now }
    {
        match self.ranges.range(..=high).next_back() {
            None => None,
            Some((_, end)) => Some(end),
        }
    }

    // Whether a range overlaps one of these.
    fn overlaps(&self, low: i64, high: i64) -> bool
        ensures { (ts : List (ℤ × ℤ)) → AreRanges self.now ts → overlaps_in low high ts ≡ result }
    {
        match self.last_end(high) {
            None => false,
            Some(end) => reaches(end, low),
        }
    }

    /// Adds a range, unless it runs downward or overlaps one that is there: then it is false, and they are as they were.
    pub fn add(&mut self, low: i64, high: i64) -> Result<bool, AllocError>
        ensures fits { (ts : List (ℤ × ℤ)) → AreRanges self.old ts → IfOk result (λ b. (int_le low high && not (overlaps_in low high ts)) ≡ b) }
        ensures added { (ts : List (ℤ × ℤ)) → AreRanges self.old ts → IfOk result (λ b. b ≡ true → AreRanges self.new ((low, high) ∷ ts)) }
        ensures kept { IfOk result (λ b. b ≡ false → self.new ≡ self.old) }
        ensures err { OnErr result (self.new ≡ self.old) }
    {
        if low <= high && !self.overlaps(low, high) {
            self.ranges.insert(low, high)?;
            Ok(true)
        } else {
            Ok(false)
        }
    }
}
