//! From bytes to an object.

ghost use Rattle.std.specs.Prelude.{◌≡◌, ◌≤◌, length, IfOk, Ok};
ghost use Rattle.plain_form.specs.Reading.{Gives};
ghost use Rattle.object_form.specs.declared.object.Object.{Object};
ghost use Rattle.object_form.specs.Objects.{IsObject, IsWritable, object_bytes, most_bytes};
ghost use Rattle.object_form.specs.Reading.{policy_at, builder_at, regs_at, bytes_at, source_at, chosen_at, built_at, kept_at, object_at, object_in};
ghost use Rattle.object_form.specs.Faults.{Tells};

use crate::fault::ObjectFault;
use crate::object::Object;
use alloc_choice::Policy;
use lir_core::{Items, TraceOut};
use plain_form::{FormFault, FormRule, FromBytes, number, read_whole, up_to};
use std::alloc::Global;
use trace_build::Builder;

/// The first bytes of an object.
pub(crate) const MARK: [u8; 8] = *b"TRC64OBJ";

/// The most bytes that a text has.
const MOST_SOURCE: u32 = 1_048_576;

// A policy by its number.
#[tactic(auto, unfolding(crate::specs::Reading::policy_at))]
fn policy(total: u32, bytes: &[u8]) -> Result<(Policy, &[u8]), FormFault>
    ensures { Gives (λ x. (x.0, x.1.now)) result (policy_at total bytes.now) }
{
    let (number, rest) = up_to(3, total, bytes)?;
    match number {
        0 => Ok((Policy::Plain, rest)),
        1 => Ok((Policy::Linear, rest)),
        2 => Ok((Policy::BottomUp, rest)),
        _ => Ok((Policy::Mixed, rest)),
    }
}

// A builder by its number.
#[tactic(auto, unfolding(crate::specs::Reading::builder_at))]
fn builder(total: u32, bytes: &[u8]) -> Result<(Builder, &[u8]), FormFault>
    ensures { Gives (λ x. (x.0, x.1.now)) result (builder_at total bytes.now) }
{
    let (number, rest) = up_to(1, total, bytes)?;
    match number {
        0 => Ok((Builder::Uni, rest)),
        _ => Ok((Builder::Bi, rest)),
    }
}

// How many registers there are.
#[tactic(auto, unfolding(crate::specs::Reading::regs_at))]
fn regs(total: u32, bytes: &[u8]) -> Result<(u8, &[u8]), FormFault>
    ensures { Gives (λ x. (x.0, x.1.now)) result (regs_at total bytes.now) }
{
    let (number, rest) = up_to(16, total, bytes)?;
    if number < 4 {
        return Err(FormFault::Broken {
            rule: FormRule::Range,
            at: (total as usize).saturating_sub(bytes.len()) as u32,
        });
    }
    Ok((number as u8, rest))
}

// So many bytes.
#[tactic(auto, unfolding(crate::specs::Reading::bytes_at))]
fn some_bytes(
    alloc: Global,
    count: u32,
    total: u32,
    bytes: &[u8],
) -> Result<(Items<u8>, &[u8]), FormFault>
    ensures { Gives (λ x. (x.0, x.1.now)) result (bytes_at total count bytes.now) }
{
    let count = count as usize;
    if bytes.len() < count {
        return Err(FormFault::Broken {
            rule: FormRule::Missing,
            at: total,
        });
    }
    let (front, rest) = bytes.split_at(count);
    let items = Items::from_slice(alloc, front)?;
    Ok((items, rest))
}

// A text.
#[tactic(auto, unfolding(crate::specs::Reading::source_at))]
fn source(alloc: Global, total: u32, bytes: &[u8]) -> Result<(Items<u8>, &[u8]), FormFault>
    ensures { Gives (λ x. (x.0, x.1.now)) result (source_at total bytes.now) }
{
    let (count, rest) = up_to(MOST_SOURCE, total, bytes)?;
    some_bytes(alloc, count, total, rest)
}

// A builder and how many registers there are.
#[tactic(auto, unfolding(crate::specs::Reading::built_at))]
fn built(total: u32, bytes: &[u8]) -> Result<((Builder, u8), &[u8]), FormFault>
    ensures { Gives (λ x. (x.0, x.1.now)) result (built_at total bytes.now) }
{
    let (builder, rest) = builder(total, bytes)?;
    let (regs, rest) = regs(total, rest)?;
    Ok(((builder, regs), rest))
}

// By what results were made.
#[tactic(auto, unfolding(crate::specs::Reading::chosen_at))]
fn chosen(total: u32, bytes: &[u8]) -> Result<((Policy, (Builder, u8)), &[u8]), FormFault>
    ensures { Gives (λ x. (x.0, x.1.now)) result (chosen_at total bytes.now) }
{
    let (policy, rest) = policy(total, bytes)?;
    let (built, rest) = built(total, rest)?;
    Ok(((policy, built), rest))
}

// A text and results.
#[tactic(auto, unfolding(crate::specs::Reading::kept_at))]
fn kept(
    alloc: Global,
    total: u32,
    bytes: &[u8],
) -> Result<((Items<u8>, Items<TraceOut>), &[u8]), FormFault>
    ensures { Gives (λ x. (x.0, x.1.now)) result (kept_at total bytes.now) }
{
    let (source, rest) = source(alloc, total, bytes)?;
    let (outs, rest) = Items::<TraceOut>::read(alloc, total, rest)?;
    Ok(((source, outs), rest))
}

impl FromBytes for Object {
    ghost read_by = { object_at };

    #[tactic(auto, unfolding(crate::specs::Reading::object_at))]
    fn read(alloc: Global, total: u32, bytes: &[u8]) -> Result<(Object, &[u8]), FormFault> {
        let (chosen, rest) = chosen(total, bytes)?;
        let (kept, rest) = kept(alloc, total, rest)?;
        let (policy, (builder, regs)) = chosen;
        let (source, outs) = kept;
        Ok((
            Object {
                policy,
                builder,
                regs,
                source,
                outs,
            },
            rest,
        ))
    }
}

// The object in bytes, or the first rule that these break.
fn whole(alloc: Global, bytes: &[u8]) -> Result<Object, ObjectFault>
    requires { length bytes.now ≤ most_bytes }
    ensures { Tells result (object_in bytes.now) }
{
    let object: Object = read_whole(alloc, &MARK, bytes)?;
    Ok(object)
}

/// The object whose bytes these are. It takes time in proportion to their number.
pub fn read_object(alloc: Global, bytes: &[u8]) -> Result<Object, ObjectFault>
    requires { length bytes.now ≤ most_bytes }
    // What is read is written back as the same bytes, and `write_object` can be asked to.
    ensures found { IfOk result (λ object. IsObject object × (bytes.now ≡ object_bytes object)) }
    ensures writable { IfOk result IsWritable }
    // What has these bytes is read, unless memory runs out.
    ensures only { (object : Object) → IsObject object → bytes.now ≡ object_bytes object → Tells result (Ok object) }
    // A fault is the first one.
    ensures exact { Tells result (object_in bytes.now) }
{
    whole(alloc, bytes)
}
