//! Plans of texts.

ghost use Rattle.std.specs.Prelude.{IfOk, IfErr};
ghost use Rattle.image_words.specs.source_image.Refusals.{IsRefusalOf};
ghost use Rattle.planned_image.specs.Plans.{IsPlanOfTexts, TellsOfPlan};

use crate::planning::{ProgramPlan, program_plan};
use image_words::{Builder, Refusal, refused_program, refused_source, source_program};
use items::Items;
use std::alloc::Global;

/// The plan of the modules with these texts, in this order, by a builder.
///
/// Each text is read and judged before the next is begun, and limits of the program come after all modules are judged.
pub fn source_plan(
    alloc: Global,
    builder: Builder,
    texts: &[Items<u8>],
) -> Result<ProgramPlan, Refusal>
    ensures plan { IfOk result (IsPlanOfTexts builder texts.now) }
    ensures refused { IfErr result (IsRefusalOf (TellsOfPlan builder) texts.now) }
{
    let program = match source_program(alloc, texts) {
        Ok(program) => program,
        Err(fault) => return Err(refused_source(fault)),
    };
    match program_plan(alloc, builder, &program) {
        Ok(plan) => Ok(plan),
        Err(fault) => Err(refused_program(fault)),
    }
}
