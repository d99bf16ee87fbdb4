//! The program that texts are.

ghost use Rattle.std.specs.Prelude.{◌≡◌, ◌≤◌, length, IfOk, IfErr};
ghost use Rattle.trc_texts.specs.words.source_image.Refusals.{IsRefusalOfTraces};
ghost use Rattle.trc_answers.specs.Causes.{IsPlaced};
ghost use Rattle.trc_texts.specs.Texts.{IsRefusedAs, IsTextIn};
ghost use Rattle.meaning_commands.specs.Programs.{AreProgram, IsNoProgram, IsWithinLimits, usual_choice};

use items::Items;
use ob_types::Program;
use std::alloc::Global;
use trc_answers::Ending;
use trc_texts::image_words::{
    Builder, Choice, Policy, program_traces, refused_program, refused_source, source_program,
};
use trc_texts::refused;

/// The program that texts are.
pub fn program_of(alloc: Global, texts: &[Items<u8>]) -> Result<Program, Ending>
    requires { length texts.now ≤ 64 }
    ensures program { IfOk result (AreProgram texts.now) }
    ensures refused { IfErr result (λ ending. IsRefusedAs (IsNoProgram texts.now) ending.cause) }
    ensures placed { IfErr result (λ ending. IsPlaced (IsTextIn texts.now) ending.cause ending.place) }
{
    match source_program(alloc, texts) {
        Ok(program) => Ok(program),
        Err(fault) => Err(refused(texts, refused_source(fault))),
    }
}

/// The choice where words don't say any.
fn usual_choice() -> Choice
    ensures { result ≡ usual_choice }
{
    Choice {
        policy: Policy::Linear,
        builder: Builder::Bi,
        regs: 16,
        jobs: 4,
    }
}

/// The program that texts are, where it passes no limit before its code is made; its traces are counted, and let go.
pub(crate) fn program_within(alloc: Global, texts: &[Items<u8>]) -> Result<Program, Ending>
    requires { length texts.now ≤ 64 }
    ensures program { IfOk result (AreProgram texts.now) }
    ensures within { IfOk result (IsWithinLimits usual_choice) }
    ensures refused { IfErr result (λ ending. IsRefusedAs (IsRefusalOfTraces usual_choice texts.now) ending.cause) }
    ensures placed { IfErr result (λ ending. IsPlaced (IsTextIn texts.now) ending.cause ending.place) }
{
    let program = match program_of(alloc, texts) {
        Ok(program) => program,
        Err(ending) => return Err(ending),
    };
    match program_traces(alloc, &usual_choice(), &program) {
        Ok(_) => Ok(program),
        Err(fault) => Err(refused(texts, refused_program(fault))),
    }
}
