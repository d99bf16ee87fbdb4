//! From texts to the last one's object.

ghost use Rattle.std.specs.Prelude.{◌≡◌, IfOk, IfErr};
ghost use Rattle.planned_image.specs.words.alloc_choice.Choice.{IsFitChoice};
ghost use Rattle.planned_image.specs.words.source_image.Refusals.{IsRefusalOf};
ghost use Rattle.planned_image.specs.words.program_image.Faults.{TellsOfTraces};
ghost use Rattle.object_form.specs.Objects.{IsWritable};
ghost use Rattle.module_object.specs.Objects.{IsObjectOfTexts, last_text};

use crate::results::own_results;
use items::Items;
use object_form::Object;
use outside::Gate;
use planned_image::image_words::{
    Choice, Refusal, refused_program, refused_source, source_program,
};
use std::alloc::{AllocError, Global};
use std::sync::Wait;
use std::thread::Threads;

// The last of some texts.
fn last_text(alloc: Global, texts: &[Items<u8>]) -> Result<Items<u8>, AllocError>
    ensures { IfOk result (λ text. text ≡ last_text texts.now) }
{
    match texts.last() {
        Some(text) => Items::from_slice(alloc, text.as_slice()),
        None => Ok(Items::new(alloc)),
    }
}

/// The object of the last of the modules with these texts, by the builder, the policy and the registers that are chosen: its text, and
/// the results of the traces of its procedures, with the numbers that these traces have behind those of the other modules. The texts
/// are refused as for their image, but never for their code, which is not made. The workers of the choice share the traces of the last
/// module's procedures, and pass the gate before each; it may wait.
pub fn module_object<G: Gate, R: Threads + Wait + Sync>(
    rt: &R,
    alloc: Global,
    choice: &Choice,
    texts: &[Items<u8>],
    gate: &G,
) -> Result<Object, Refusal>
    requires { IsFitChoice choice.now }
    ensures object { IfOk result (IsObjectOfTexts choice.now texts.now) }
    ensures writable { IfOk result IsWritable }
    ensures refused { IfErr result (IsRefusalOf (TellsOfTraces choice.now) texts.now) }
{
    let program = match source_program(alloc, texts) {
        Ok(program) => program,
        Err(fault) => return Err(refused_source(fault)),
    };
    let number = texts.len().saturating_sub(1);
    let outs = match own_results(rt, alloc, choice, number, &program, gate) {
        Ok(outs) => outs,
        Err(fault) => return Err(refused_program(fault)),
    };
    let Ok(source) = last_text(alloc, texts) else {
        return Err(Refusal::Memory);
    };
    Ok(Object {
        policy: choice.policy,
        builder: choice.builder,
        regs: choice.regs,
        source,
        outs: Items::from_vec(outs),
    })
}
