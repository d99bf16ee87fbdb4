//! From an object to bytes.

ghost use Rattle.std.specs.Prelude.{◌≡◌, ◌++◌, ◌≤◌, length, IfOk, OnOk};
ghost use Rattle.std.specs.Result.{IfErr};
ghost use Rattle.plain_form.specs.Formats.{IsBytes};
ghost use Rattle.plain_form.specs.Spelling.{number, list, Any, KeepsList};
ghost use Rattle.plain_form.specs.results.Spelling.{result as spelled_result};
ghost use Rattle.plain_form.specs.results.Bounds.{TypedResult};
ghost use Rattle.object_form.specs.Objects.{IsObject, IsWritable, object_bytes, most_bytes, policy_number, builder_number, text, spelled};
ghost use Rattle.object_form.specs.Faults.{IsTooLong};

use crate::fault::ObjectFault;
use crate::object::Object;
use crate::reading::MARK;
use alloc_choice::Policy;
use plain_form::{ToBytes, put_count, put_number};
use std::alloc::{AllocError, Global};
use trace_build::Builder;

/// The most bytes that an object has.
const MOST: usize = 67_108_864;

// The number of a policy.
fn policy_number(policy: Policy) -> u32
    ensures { result ≡ policy_number policy }
{
    match policy {
        Policy::Plain => 0,
        Policy::Linear => 1,
        Policy::BottomUp => 2,
        Policy::Mixed => 3,
    }
}

// The number of a builder.
fn builder_number(builder: Builder) -> u32
    ensures { result ≡ builder_number builder }
{
    match builder {
        Builder::Uni => 0,
        Builder::Bi => 1,
    }
}

// Puts a text behind bytes.
fn put_source(out: &mut Vec<u8>, source: &[u8]) -> Result<(), AllocError>
    ensures bytes { OnOk result (out.new.items ≡ out.old.items ++ text source.now) }
    ensures typed { OnOk result (IsBytes source.now) }
{
    put_count(out, source.len())?;
    out.extend_from_slice(source)?;
    Ok(())
}

// Puts behind bytes by what results were made.
fn put_chosen(out: &mut Vec<u8>, object: &Object) -> Result<(), AllocError>
    ensures { OnOk result (out.new.items ≡ out.old.items
        ++ (number (policy_number object.now.policy) ++ (number (builder_number object.now.builder) ++ number object.now.regs))) }
{
    put_number(out, policy_number(object.policy))?;
    put_number(out, builder_number(object.builder))?;
    put_number(out, object.regs as u32)
}

// Puts a text and results behind bytes.
fn put_kept(out: &mut Vec<u8>, object: &Object) -> Result<(), AllocError>
    ensures bytes { OnOk result (out.new.items ≡ out.old.items ++ (text object.now.source ++ list spelled_result object.now.outs)) }
    ensures source { OnOk result (IsBytes object.now.source) }
    ensures typed { OnOk result (KeepsList Any TypedResult object.now.outs) }
{
    put_source(out, object.source.as_slice())?;
    object.outs.put(out)
}

/// The bytes of an object. It takes time in proportion to their number. The registers are 4 to 16, the text has at most 1,048,576
/// bytes; in the results registers are at most 15, and values in rows of registers below 2^32 - 1.
pub fn write_object(alloc: Global, object: &Object) -> Result<Vec<u8>, ObjectFault>
    requires { IsWritable object.now }
    ensures object { IfOk result (λ bytes. bytes.items ≡ object_bytes object.now) }
    ensures short { IfOk result (λ bytes. length bytes.items ≤ most_bytes) }
    // So `read_object` reads them as this object.
    ensures read { IfOk result (λ bytes. IsObject object.now) }
    // It is refused where it would be too long, and nowhere else.
    ensures limit { IfErr result (λ e. IsTooLong e (length (object_bytes object.now))) }
{
    let mut out = Vec::new(alloc);
    out.extend_from_slice(&MARK)?;
    put_chosen(&mut out, object)?;
    put_kept(&mut out, object)?;
    if out.len() > MOST {
        return Err(ObjectFault::Limit);
    }
    Ok(out)
}
