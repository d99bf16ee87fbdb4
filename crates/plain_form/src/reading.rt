//! Reading from the front of bytes.

ghost use Rattle.std.specs.Prelude.{◌≡◌, ◌≤◌, ◌-◌, ℕ, List, length, IfOk, Result};
ghost use Rattle.plain_form.specs.Reading.{Broken, Gives, number_at, up_to_at, register_at, several, list_at, mark_at, whole_of};

use crate::fault::{FormFault, FormRule};
use lir_core::{Items, RegisterList};
use std::alloc::Global;

/// What is read from the front of bytes.
pub trait FromBytes: Sized + Drop {
    /// What reading gives, where all the bytes are so many.
    ghost read_by: { ℕ → List ℕ → Result (Self × List ℕ) Broken };

    /// Reads one, and gives the bytes behind it; `total` is the length of all the bytes, of which these are the last.
    fn read(alloc: Global, total: u32, bytes: &[u8]) -> Result<(Self, &[u8]), FormFault>
        ensures { Gives (λ x. (x.0, x.1.now)) result (read_by total bytes.now) };
}

/// Reads a number of four bytes.
#[tactic(auto, unfolding(crate::specs::Reading::number_at))]
pub fn number(total: u32, bytes: &[u8]) -> Result<(u32, &[u8]), FormFault>
    ensures { Gives (λ x. (x.0, x.1.now)) result (number_at total bytes.now) }
{
    if bytes.len() < 4 {
        return Err(FormFault::Broken {
            rule: FormRule::Missing,
            at: total,
        });
    }
    let (front, rest) = bytes.split_at(4);
    let number = u32::from_le_bytes([front[0], front[1], front[2], front[3]]);
    Ok((number, rest))
}

// The place of the first of the last bytes, of so many.
fn place_of(total: u32, rest: &[u8]) -> u32
    ensures { result ≡ total - length rest.now }
{
    (total as usize).saturating_sub(rest.len()) as u32
}

/// Reads a number that is at most `most`.
#[tactic(auto, unfolding(crate::specs::Reading::up_to_at))]
pub fn up_to(most: u32, total: u32, bytes: &[u8]) -> Result<(u32, &[u8]), FormFault>
    ensures given { Gives (λ x. (x.0, x.1.now)) result (up_to_at most total bytes.now) }
    ensures small { IfOk result (λ x. x.0 ≤ most) }
{
    let (number, rest) = number(total, bytes)?;
    if number > most {
        return Err(FormFault::Broken {
            rule: FormRule::Range,
            at: place_of(total, bytes),
        });
    }
    Ok((number, rest))
}

impl FromBytes for u32 {
    ghost read_by = { number_at };

    fn read(_alloc: Global, total: u32, bytes: &[u8]) -> Result<(u32, &[u8]), FormFault> {
        number(total, bytes)
    }
}

// The number of a register.
impl FromBytes for u8 {
    ghost read_by = { register_at };

    fn read(_alloc: Global, total: u32, bytes: &[u8]) -> Result<(u8, &[u8]), FormFault> {
        let (number, rest) = up_to(15, total, bytes)?;
        Ok((number as u8, rest))
    }
}

// So many, one behind the other.
fn several<T: FromBytes>(
    alloc: Global,
    count: u32,
    total: u32,
    bytes: &[u8],
) -> Result<(Items<T>, &[u8]), FormFault>
    ensures { Gives (λ x. (x.0, x.1.now)) result (several (T.read_by total) count bytes.now) }
{
    let mut items = Items::new(alloc);
    let mut rest = bytes;
    for _ in 0..count {
        let (item, after) = T::read(alloc, total, rest)?;
        items.push(item)?;
        rest = after;
    }
    Ok((items, rest))
}

impl<T: FromBytes> FromBytes for Items<T> {
    ghost read_by = { λ total. list_at (T.read_by total) total };

    #[tactic(auto, unfolding(crate::specs::Reading::list_at))]
    fn read(alloc: Global, total: u32, bytes: &[u8]) -> Result<(Items<T>, &[u8]), FormFault> {
        let (count, rest) = number(total, bytes)?;
        several(alloc, count, total, rest)
    }
}

// So many registers, one behind the other.
fn registers(
    alloc: Global,
    count: u32,
    total: u32,
    bytes: &[u8],
) -> Result<(RegisterList, &[u8]), FormFault>
    ensures { Gives (λ x. (x.0, x.1.now)) result (several (register_at total) count bytes.now) }
{
    let mut items = RegisterList::new(alloc);
    let mut rest = bytes;
    for _ in 0..count {
        let (item, after) = u8::read(alloc, total, rest)?;
        items.push(item)?;
        rest = after;
    }
    Ok((items, rest))
}

impl FromBytes for RegisterList {
    ghost read_by = { λ total. list_at (register_at total) total };

    #[tactic(auto, unfolding(crate::specs::Reading::list_at))]
    fn read(alloc: Global, total: u32, bytes: &[u8]) -> Result<(RegisterList, &[u8]), FormFault> {
        let (count, rest) = number(total, bytes)?;
        registers(alloc, count, total, rest)
    }
}

// The bytes behind the mark.
#[tactic(auto, unfolding(crate::specs::Reading::mark_at))]
fn marked<'a>(mark: &[u8], bytes: &'a [u8]) -> Result<&'a [u8], FormFault>
    requires { length bytes.now ≤ 4294967295 }
    ensures { Gives (λ rest. rest.now) result (mark_at mark.now bytes.now) }
{
    if bytes.len() < mark.len() {
        return Err(FormFault::Broken {
            rule: FormRule::Missing,
            at: bytes.len() as u32,
        });
    }
    if bytes[..mark.len()] != mark[..] {
        return Err(FormFault::Broken {
            rule: FormRule::Mark,
            at: 0,
        });
    }
    Ok(&bytes[mark.len()..])
}

/// Reads one that stands behind a mark, with nothing behind it. It takes time in proportion to the bytes.
#[tactic(auto, unfolding(crate::specs::Reading::whole_of))]
pub fn read_whole<T: FromBytes>(alloc: Global, mark: &[u8], bytes: &[u8]) -> Result<T, FormFault>
    requires { length bytes.now ≤ 4294967295 }
    ensures { Gives (λ x. x) result (whole_of mark.now T.read_by bytes.now) }
{
    let rest = marked(mark, bytes)?;
    let total = bytes.len() as u32;
    let (whole, rest) = T::read(alloc, total, rest)?;
    if !rest.is_empty() {
        return Err(FormFault::Broken {
            rule: FormRule::Trailing,
            at: place_of(total, rest),
        });
    }
    Ok(whole)
}
