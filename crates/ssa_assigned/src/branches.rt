//! How far down the branches of IF variables are assigned.

ghost use Rattle.std.specs.Prelude.{◌≡◌, ◌||◌, ◌<◌, ℕ, drop, length, nat_lt, slice_index, IfOk};
ghost use Rattle.std.specs.List.{filter};
ghost use Rattle.ssa_assigned.specs.Assigned.{has, assigned_parts};
ghost use Rattle.ssa_assigned.specs.Numbers.{put_all};

use crate::assigned::note_all;
use ob_types::Branch;
use outside::Memory;
use std::alloc::Global;

/// For each of the first so many variables, how many branches, from the first on, assign it or have a branch behind them that
/// does: all of them, where it is assigned behind the last one too.
pub fn lasting(
    alloc: Global,
    count: usize,
    parts: &[Branch],
    other: &[u32],
) -> Result<Vec<usize>, Memory>
    ensures { IfOk result (λ list. (x i : ℕ) → x < count → i < length parts.now →
        nat_lt i (slice_index list.items x) ≡ (assigned_parts (drop i parts.now) x || has other.now x)) }
{
    let mut list = vec![in alloc; 0; count]?;
    let mut found = Vec::new(alloc);
    for i in 0..parts.len() {
        found.clear();
        note_all(parts[i].body.as_slice(), &mut found)?;
        put(&mut list, found.as_slice(), i + 1);
    }
    put(&mut list, other, parts.len());
    Ok(list)
}

/// The variables of a list get a number.
fn put(list: &mut Vec<usize>, found: &[u32], number: usize)
    ensures { list.new.items ≡ put_all number found.now list.old.items }
{
    for x in found {
        let at = *x as usize;
        if at < list.len() {
            list[at] = number;
        }
    }
}

/// Of some variables those that the branch of a number or one behind it assigns, by how many branches each of them lasts.
pub fn still_assigned(
    alloc: Global,
    variables: &[u32],
    lasting: &[usize],
    number: usize,
) -> Result<Vec<u32>, Memory>
    ensures { IfOk result (λ list. list.items ≡ filter (λ x. nat_lt number (slice_index lasting.now x)) variables.now) }
{
    let mut list = Vec::new(alloc);
    for x in variables {
        if number < count_of(lasting, *x) {
            list.push(*x)?;
        }
    }
    Ok(list)
}

/// How many branches a variable lasts; none where it isn't in the list.
fn count_of(lasting: &[usize], x: u32) -> usize
    ensures { result ≡ slice_index lasting.now x }
{
    if (x as usize) < lasting.len() {
        lasting[x as usize]
    } else {
        0
    }
}
