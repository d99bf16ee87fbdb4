//! The page of texts.

ghost use Rattle.std.specs.Prelude.{map, IfOk, IfErr};
ghost use Rattle.shown_program.specs.words.alloc_choice.Choice.{IsFitChoice};
ghost use Rattle.shown_program.specs.words.source_image.Refusals.{IsRefusalOf};
ghost use Rattle.program_page.specs.Faults.{TellsOfPage};
ghost use Rattle.program_page.specs.Pages.{IsPageOfTexts, wish_of};

use crate::pages::program_page;
use items::Items;
use outside::Gate;
use shown_program::image_words::{Refusal, refused_program, refused_source, source_program};
use std::alloc::Global;
use std::sync::Wait;
use std::thread::Threads;
use whole_page::Asked;

/// The page of the modules that files with these names and texts hold, by the choice and the other policy that are asked for. The
/// workers of the choice share the traces of all procedures, and pass the gate before each; it may wait.
pub fn source_page<G: Gate, R: Threads + Wait + Sync>(
    rt: &R,
    alloc: Global,
    asked: &Asked<'_>,
    texts: &[Items<u8>],
    gate: &G,
) -> Result<Vec<u8>, Refusal>
    requires { IsFitChoice asked.now.choice.now }
    ensures page { IfOk result (λ page. IsPageOfTexts (wish_of (map (λ name. name.now) asked.now.names.now) texts.now asked.now.choice.now asked.now.policy) page.items) }
    ensures refused { IfErr result (IsRefusalOf (TellsOfPage (wish_of (map (λ name. name.now) asked.now.names.now) texts.now asked.now.choice.now asked.now.policy)) texts.now) }
{
    let program = match source_program(alloc, texts) {
        Ok(program) => program,
        Err(fault) => return Err(refused_source(fault)),
    };
    match program_page(rt, alloc, asked, texts, &program, gate) {
        Ok(page) => Ok(page),
        Err(fault) => Err(refused_program(fault)),
    }
}
