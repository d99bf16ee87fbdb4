//! The texts and the results of objects.

ghost use Rattle.std.specs.Prelude.{◌≡◌, ◌<◌, ◌≤◌, length, None, IfOk, IfErr};
ghost use Rattle.obj_link.specs.Joining.{is_of_choice, other_choice, texts_of, results_of, IsJoined, TellsOfJoin};

use crate::fault::JoinFault;
use items::Items;
use lir_core::TraceOut;
use object_form::{Builder, Object, Policy};
use outside::Memory;
use std::alloc::Global;

/// What objects have together.
#[derive(Drop)]
pub struct Joined {
    /// By what all results were made.
    pub policy: Policy,
    /// By what all traces were cut.
    pub builder: Builder,
    /// How many registers all results are over.
    pub regs: u8,
    /// The text of each module.
    pub texts: Vec<Items<u8>>,
    /// All results, one object's behind the other's.
    pub outs: Vec<TraceOut>,
}

// Whether an object's results were made by the same choice as another's.
fn is_of_choice(first: &Object, object: &Object) -> bool
    ensures { result ≡ is_of_choice first.now object.now }
{
    first.policy == object.policy && first.builder == object.builder && first.regs == object.regs
}

// The first object of another choice than the first one's.
fn other_choice(objects: &[Object]) -> Option<u32>
    requires some { 0 < length objects.now }
    requires few { length objects.now ≤ 64 }
    ensures { result ≡ other_choice objects.now }
{
    let first = &objects[0];
    for (at, object) in objects.iter().enumerate() {
        if !is_of_choice(first, object) {
            return Some(at as u32);
        }
    }
    None
}

// The texts and the results of objects, one behind the other.
fn parts(alloc: Global, objects: Vec<Object>) -> Result<(Vec<Items<u8>>, Vec<TraceOut>), Memory>
    ensures texts { IfOk result (λ x. x.0.items ≡ texts_of objects.items) }
    ensures outs { IfOk result (λ x. x.1.items ≡ results_of objects.items) }
{
    let mut texts = Vec::with_capacity(alloc, objects.len())?;
    let mut outs = Vec::new(alloc);
    for object in objects {
        let Object {
            source,
            outs: own,
            ..
        } = object;
        texts.push(source)?;
        outs.append(&mut own.into_vec())?;
    }
    Ok((texts, outs))
}

/// The texts of 1 to 64 objects and their results, one behind the other, where all results were made by one choice. `OtherChoice`
/// comes exactly where an object's policy, builder or number of registers isn't the first one's, and tells the first such. Takes time
/// in proportion to the number of results.
pub fn join(alloc: Global, objects: Vec<Object>) -> Result<Joined, JoinFault>
    requires some { 0 < length objects.items }
    requires few { length objects.items ≤ 64 }
    ensures joined { IfOk result (IsJoined objects.items) }
    ensures one_choice { IfOk result (λ joined. other_choice objects.items ≡ None) }
    ensures told { IfErr result (TellsOfJoin objects.items) }
{
    if let Some(object) = other_choice(objects.as_slice()) {
        return Err(JoinFault::OtherChoice { object });
    }
    let first = &objects[0];
    let (policy, builder, regs) = (first.policy, first.builder, first.regs);
    let (texts, outs) = parts(alloc, objects)?;
    Ok(Joined {
        policy,
        builder,
        regs,
        texts,
        outs,
    })
}
