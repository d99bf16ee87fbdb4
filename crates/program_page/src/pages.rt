//! The page of a program.

ghost use Rattle.std.specs.Prelude.{◌≡◌, ◌<◌, ◌≤◌, ℕ, List, length, map, true, IfOk, IfErr};
ghost use Rattle.ob_types.specs.WellFormed.{well_formed};
ghost use Rattle.shown_program.specs.words.alloc_choice.Choice.{IsFitChoice};
ghost use Rattle.whole_page.specs.Pages.{IsPage, most_bytes, page_text};
ghost use Rattle.whole_page.specs.Views.{maybe_view, view_of};
ghost use Rattle.shown_program.specs.words.program_image.Faults.{whole_limit};
ghost use Rattle.program_page.specs.Faults.{TellsOfOther, TellsOfPage};
ghost use Rattle.program_page.specs.Pages.{IsBeside, IsProgramPage, program_view, view_beside, wish_of, with_policy};

use items::Items;
use ob_types::Program;
use outside::{Gate, Memory};
use shown_program::image_words::whole_limit;
use shown_program::{Choice, Policy, ProgramFault, ShownProgram, shown_program};
use std::alloc::Global;
use std::sync::Wait;
use std::thread::Threads;
use whole_page::{Asked, Seen, page_of};

// The choice with another policy.
fn with_policy(choice: &Choice, policy: Policy) -> Choice
    ensures { result ≡ with_policy choice.now policy }
{
    Choice {
        policy,
        builder: choice.builder,
        regs: choice.regs,
        jobs: choice.jobs,
    }
}

// The program by the other policy, where there is one.
fn beside<G: Gate, R: Threads + Wait + Sync>(
    rt: &R,
    alloc: Global,
    choice: &Choice,
    policy: Option<Policy>,
    program: &Program,
    gate: &G,
) -> Result<Option<ShownProgram>, ProgramFault>
    requires well_formed { well_formed program.now ≡ true }
    requires choice { IsFitChoice choice.now }
    ensures shown { IfOk result (IsBeside choice.now policy program.now) }
    ensures limit { IfErr result (TellsOfOther choice.now policy program.now) }
{
    match policy {
        Some(policy) => match shown_program(
            rt,
            alloc,
            &with_policy(choice, policy),
            program,
            gate,
        ) {
            Ok(made) => Ok(Some(made)),
            Err(fault) => Err(fault),
        },
        None => Ok(None),
    }
}

// What a page shows of a program.
fn seen<'a>(choice: &Choice, made: &'a ShownProgram) -> Seen<'a>
    ensures { view_of result ≡ program_view choice.now made.now }
{
    Seen {
        choice: *choice,
        flows: made.flows.as_slice(),
        cuts: made.cuts.as_slice(),
        parents: made.parents.as_slice(),
        outs: made.outs.as_slice(),
        lines: made.lines.as_slice(),
        plans: made.plans.as_slice(),
        code: made.image.code.as_slice(),
        places: made.image.places.as_slice(),
    }
}

// And of one by the other policy, where there is one.
fn seen_beside<'a>(
    choice: &Choice,
    policy: Option<Policy>,
    made: &'a Option<ShownProgram>,
) -> Option<Seen<'a>>
    ensures { maybe_view result ≡ view_beside choice.now policy made.now }
{
    match (policy, made) {
        (Some(policy), Some(made)) => Some(seen(&with_policy(choice, policy), made)),
        _ => None,
    }
}

// The page of a program that was made, or none where it is too long.
fn page_of_programs(
    alloc: Global,
    asked: &Asked<'_>,
    texts: &[Items<u8>],
    own: &ShownProgram,
    other: &Option<ShownProgram>,
) -> Result<Option<Vec<u8>>, Memory>
    ensures { IfOk result (IsPage (page_text (map (λ name. name.now) asked.now.names.now) texts.now asked.now.choice.now asked.now.policy own.now.image
        (program_view asked.now.choice.now own.now) (view_beside asked.now.choice.now asked.now.policy other.now))) }
{
    let beside = seen_beside(asked.choice, asked.policy, other);
    page_of(
        alloc,
        asked,
        &own.image,
        texts,
        &seen(asked.choice, own),
        &beside,
    )
}

// A page, or the limit that is passed where there is none.
fn page_or_limit(made: Option<Vec<u8>>) -> Result<Vec<u8>, ProgramFault>
    ensures page { (text : List ℕ) → IsPage text made → IfOk result (λ page. (page.items ≡ text) × (length page.items ≤ most_bytes)) }
    ensures limit { (text : List ℕ) → IsPage text made → IfErr result (λ fault. (fault ≡ whole_limit 71) × (most_bytes < length text)) }
{
    match made {
        Some(page) => Ok(page),
        None => Err(whole_limit(71)),
    }
}

/// The page of a well-formed program that the files with these names and texts are, by the choice and the other policy that are asked
/// for. A program is refused as it is for its image by the choice; behind that for its image by the other policy; and behind all of that
/// where the page would have over 67,108,864 bytes (71). All its flows and results lie in memory, by both policies. The workers of the
/// choice share the traces, and pass the gate before each; it may wait.
pub fn program_page<G: Gate, R: Threads + Wait + Sync>(
    rt: &R,
    alloc: Global,
    asked: &Asked<'_>,
    texts: &[Items<u8>],
    program: &Program,
    gate: &G,
) -> Result<Vec<u8>, ProgramFault>
    requires well_formed { well_formed program.now ≡ true }
    requires choice { IsFitChoice asked.now.choice.now }
    ensures page { IfOk result (λ page. IsProgramPage (wish_of (map (λ name. name.now) asked.now.names.now) texts.now asked.now.choice.now asked.now.policy)
        program.now page.items) }
    ensures limit { IfErr result (TellsOfPage (wish_of (map (λ name. name.now) asked.now.names.now) texts.now asked.now.choice.now asked.now.policy) program.now) }
{
    let own = shown_program(rt, alloc, asked.choice, program, gate)?;
    let other = beside(rt, alloc, asked.choice, asked.policy, program, gate)?;
    match page_of_programs(alloc, asked, texts, &own, &other) {
        Ok(made) => page_or_limit(made),
        Err(_) => Err(ProgramFault::Memory),
    }
}
