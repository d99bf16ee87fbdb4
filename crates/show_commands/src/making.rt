//! Modules are read, and their page is written to a file.

ghost use Rattle.std.specs.Prelude.{◌≤◌, ℕ, List, Option, length, map, IfOk, IfErr};
ghost use Rattle.outside.specs.Sink.{Account};
ghost use Rattle.program_page.specs.words.alloc_choice.Choice.{IsFitChoice};
ghost use Rattle.program_page.specs.words.source_image.Refusals.{IsRefusalOf};
ghost use Rattle.program_page.specs.Faults.{TellsOfPage};
ghost use Rattle.program_page.specs.Pages.{IsPageOfTexts, wish_of};
ghost use Rattle.trc_answers.specs.Answers.{Answers, devices};
ghost use Rattle.trc_answers.specs.Causes.{IsPlaced};
ghost use Rattle.trc_answers.specs.Reading.{FilesComeTo};
ghost use Rattle.trc_texts.specs.Texts.{IsRefusedAs, IsTextHeld, IsTextIn};
ghost use Rattle.show_commands.specs.Shows.{ShowComesTo};

use items::Items;
use outside::{Files, Gate};
use program_page::{Asked, Choice, Policy, source_page};
use std::alloc::{AllocGlobal, Global};
use std::sync::Wait;
use std::thread::Threads;
use trc_answers::{Ending, read_texts, write_file};
use trc_texts::refused;

// The page of texts, of which there are at most 64.
fn made_page<R: Threads + Wait + Sync, G: Gate>(
    rt: &R,
    alloc: Global,
    asked: &Asked<'_>,
    texts: &[Items<u8>],
    gate: &G,
) -> Result<Vec<u8>, Ending>
    requires choice { IsFitChoice asked.now.choice.now }
    requires few { length texts.now ≤ 64 }
    ensures page { IfOk result (λ page. IsPageOfTexts (wish_of (map (λ name. name.now) asked.now.names.now) texts.now asked.now.choice.now asked.now.policy) page.items) }
    ensures refused { IfErr result (λ ending.
        IsRefusedAs (IsRefusalOf (TellsOfPage (wish_of (map (λ name. name.now) asked.now.names.now) texts.now asked.now.choice.now asked.now.policy)) texts.now) ending.cause) }
    ensures placed { IfErr result (λ ending. IsPlaced (IsTextIn texts.now) ending.cause ending.place) }
{
    match source_page(rt, alloc, asked, texts, gate) {
        Ok(page) => Ok(page),
        Err(refusal) => Err(refused(texts, refusal)),
    }
}

// Writes the page of texts to the file of this name.
fn store_of_texts<R: Threads + Wait + AllocGlobal + Sync, F: Files, G: Gate>(
    rt: &R,
    out: &str,
    asked: &Asked<'_>,
    texts: &[Items<u8>],
    files: &mut F,
    gate: &G,
) -> Ending
    requires choice { IsFitChoice asked.now.choice.now }
    requires few { length texts.now ≤ 64 }
    ensures answers { (left : Option (List ℕ)) (faults : ℕ) (output : Account)
        → Answers (λ _. ShowComesTo asked.now.choice.now asked.now.policy out.now (map (λ name. name.now) asked.now.names.now) texts.now)
        (devices (F.held files.old) (F.faults files.old) left faults output)
        (devices (F.held files.new) (F.faults files.new) left faults output) result.cause }
    ensures placed { IsPlaced (IsTextIn texts.now) result.cause result.place }
    ensures rises { F.faults files.old ≤ F.faults files.new }
{
    match made_page(rt, rt.alloc(), asked, texts, gate) {
        Ok(page) => Ending::of(write_file(rt.alloc(), out, page.as_slice(), files)),
        Err(ending) => ending,
    }
}

/// Reads the files of these names, and writes the page of their program to the file `out`: how registers were given in it by the choice,
/// and by another policy beside it, where there is one. It is written last.
pub fn show<R: Threads + Wait + AllocGlobal + Sync, F: Files, G: Gate>(
    rt: &R,
    out: &str,
    names: &[&str],
    choice: &Choice,
    against: Option<Policy>,
    files: &mut F,
    gate: &G,
) -> Ending
    requires { IsFitChoice choice.now }
    ensures answers { (left : Option (List ℕ)) (faults : ℕ) (output : Account)
        → Answers (λ _. FilesComeTo (F.held files.old) (map (λ name. name.now) names.now)
        (ShowComesTo choice.now against out.now (map (λ name. name.now) names.now)))
        (devices (F.held files.old) (F.faults files.old) left faults output)
        (devices (F.held files.new) (F.faults files.new) left faults output) result.cause }
    ensures placed { IsPlaced (IsTextHeld (F.held files.old) (map (λ name. name.now) names.now)) result.cause result.place }
    ensures rises { F.faults files.old ≤ F.faults files.new }
{
    let asked = Asked {
        names,
        choice,
        policy: against,
    };
    match read_texts(rt.alloc(), names, files) {
        Ok(texts) => store_of_texts(rt, out, &asked, texts.as_slice(), files, gate),
        Err(cause) => Ending::of(cause),
    }
}
