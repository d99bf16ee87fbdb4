//! Rising lists, and where numbers stand in them.

ghost use Rattle.std.specs.Prelude.{◌≡◌, ◌≤◌, ◌↔◌, None, length, slice_get, true, false};
ghost use Rattle.lir_core.specs.Spots.{IsRising};
ghost use Rattle.rising_lists.specs.Rising.{is_behind, rises_behind, rank, is_number};

/// Whether each number is above the one before.
pub fn is_rising(numbers: &[u32]) -> bool
    ensures { (result ≡ true) ↔ IsRising numbers.now }
{
    rise(numbers)
}

fn rise(numbers: &[u32]) -> bool
    ensures { result ≡ rises_behind None numbers.now }
{
    let mut before = None;
    for number in numbers {
        if !is_behind(before, *number) {
            return false;
        }
        before = Some(*number);
    }
    true
}

// Whether a number may stand behind another, if there is one.
fn is_behind(before: Option<u32>, number: u32) -> bool
    ensures { result ≡ is_behind before number }
{
    match before {
        Some(before) => before < number,
        None => true,
    }
}

/// Where a number stands in a rising list, or would stand: how many are below it. One that is above all is found at once,
/// and any other by halving.
pub fn rank(numbers: &[u32], number: u32) -> usize
    ensures rank { IsRising numbers.now → result ≡ rank number numbers.now }
    ensures bound { result ≤ length numbers.now }
{
    if are_below(numbers, number) {
        return numbers.len();
    }
    numbers.partition_point(|other| *other < number)
}

// Whether all numbers of a rising list are below another.
fn are_below(numbers: &[u32], number: u32) -> bool
    ensures { IsRising numbers.now → result ≡ true → rank number numbers.now ≡ length numbers.now }
{
    match numbers.last() {
        Some(last) => *last < number,
        None => true,
    }
}

/// The same, where an index is tried first.
pub fn rank_near(numbers: &[u32], index: usize, number: u32) -> usize
    ensures rank { IsRising numbers.now → result ≡ rank number numbers.now }
    ensures bound { result ≤ length numbers.now }
{
    if !is_past(numbers, index, number) && is_reached(numbers, index, number) {
        return index;
    }
    rank(numbers, number)
}

/// Whether an index is past where a number stands in a rising list, or would stand.
pub(crate) fn is_past(numbers: &[u32], index: usize, number: u32) -> bool
    ensures rank { IsRising numbers.now → result ≡ false → index ≤ rank number numbers.now }
    ensures bound { result ≡ false → index ≤ length numbers.now }
{
    if index == 0 {
        return false;
    }
    match numbers.get(index - 1) {
        Some(before) => *before >= number,
        None => true,
    }
}

// Whether a number stands in a list at an index or before it, or would stand there.
fn is_reached(numbers: &[u32], index: usize, number: u32) -> bool
    ensures { result ≡ true → rank number numbers.now ≤ index }
{
    match numbers.get(index) {
        Some(found) => *found >= number,
        None => true,
    }
}

/// Whether a number is the one at an index.
pub fn is_at(numbers: &[u32], index: usize, number: u32) -> bool
    ensures { result ≡ is_number (slice_get numbers.now index) number }
{
    match numbers.get(index) {
        Some(found) => *found == number,
        None => false,
    }
}
