//! Putting behind bytes.

ghost use Rattle.std.specs.Prelude.{◌≡◌, ◌++◌, ℕ, List, OnOk};
ghost use Rattle.std.specs.List.{flat_map, All};
ghost use Rattle.plain_form.specs.Spelling.{number, list, IsNumber, Any, KeepsList};

use lir_core::{Items, RegisterList};
use std::alloc::AllocError;

/// What is put behind bytes.
pub trait ToBytes: Sized {
    /// The bytes of a value.
    ghost spelled: { Self → List ℕ };

    /// What its type says of it.
    ghost typed: { Self → Type 0 };

    /// Puts the bytes of a value behind others. Of the count of a list with 2^32 items or more it puts the lowest four
    /// bytes: who gives bytes away refuses so long ones.
    fn put(&self, out: &mut Vec<u8>) -> Result<(), AllocError>
        ensures bytes { OnOk result (out.new.items ≡ out.old.items ++ spelled self.now) }
        ensures typed { OnOk result (typed self.now) };
}

/// Puts the four bytes of a number behind others.
#[tactic(auto, unfolding(crate::specs::Spelling::number))]
pub fn put_number(out: &mut Vec<u8>, n: u32) -> Result<(), AllocError>
    ensures bytes { OnOk result (out.new.items ≡ out.old.items ++ number n) }
    ensures typed { OnOk result (IsNumber n) }
{
    out.extend_from_slice(&n.to_le_bytes())?;
    Ok(())
}

/// Puts the lowest four bytes of a count behind others.
#[tactic(auto, using(crate::proofs::Counts::lowest))]
pub fn put_count(out: &mut Vec<u8>, count: usize) -> Result<(), AllocError>
    ensures { OnOk result (out.new.items ≡ out.old.items ++ number count) }
{
    put_number(out, (count % (1 << 32)) as u32)
}

/// Puts the bytes of values behind others, one behind the other.
pub fn put_each<T: ToBytes>(out: &mut Vec<u8>, items: &[T]) -> Result<(), AllocError>
    ensures bytes { OnOk result (out.new.items ≡ out.old.items ++ flat_map T.spelled items.now) }
    ensures typed { OnOk result (All T.typed items.now) }
{
    for item in items {
        item.put(out)?;
    }
    Ok(())
}

/// Puts the bytes of a list behind others.
pub fn put_list<T: ToBytes>(out: &mut Vec<u8>, items: &[T]) -> Result<(), AllocError>
    ensures bytes { OnOk result (out.new.items ≡ out.old.items ++ list T.spelled items.now) }
    ensures typed { OnOk result (KeepsList Any T.typed items.now) }
{
    put_count(out, items.len())?;
    put_each(out, items)
}

impl ToBytes for u32 {
    ghost spelled = { number };

    ghost typed = { IsNumber };

    fn put(&self, out: &mut Vec<u8>) -> Result<(), AllocError> {
        put_number(out, *self)
    }
}

// The number of a register.
impl ToBytes for u8 {
    ghost spelled = { number };

    ghost typed = { Any };

    fn put(&self, out: &mut Vec<u8>) -> Result<(), AllocError> {
        put_number(out, *self as u32)
    }
}

impl<T: ToBytes> ToBytes for Items<T> {
    ghost spelled = { list T.spelled };

    ghost typed = { KeepsList Any T.typed };

    fn put(&self, out: &mut Vec<u8>) -> Result<(), AllocError> {
        put_list(out, self.as_slice())
    }
}

impl ToBytes for RegisterList {
    ghost spelled = { list number };

    ghost typed = { KeepsList Any Any };

    fn put(&self, out: &mut Vec<u8>) -> Result<(), AllocError> {
        put_list(out, self.as_slice())
    }
}
