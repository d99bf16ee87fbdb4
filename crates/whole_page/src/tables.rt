//! The tables of a procedure's traces.

ghost use Rattle.std.specs.Prelude.{◌≡◌, ◌+◌, ◌++◌, IfOk, OnOk};
ghost use Rattle.link_blocks.specs.Plans.{placed_in};
ghost use Rattle.line_words.specs.LineWidths.{line_widths};
ghost use Rattle.trace_tables.specs.Tables.{plain_shown};
ghost use Rattle.page_rows.specs.Headings.{place_at};
ghost use Rattle.whole_page.specs.Tables.{policies_of, shown_of, tables_at, tables_of};
ghost use Rattle.whole_page.specs.Views.{view_of};

use crate::seen::Seen;
use alloc_choice::{Choice, Used, policy_of};
use image_form::ProcPlace;
use line_words::line_widths;
use link_blocks::Plan;
use lir_core::{Flow, Trace};
use outside::Memory;
use std::alloc::{AllocError, Global};
use trace_tables::{ShownProcedure, put_tables};

// By what each of these traces is given places.
fn policies_of(
    alloc: Global,
    choice: &Choice,
    flow: &Flow,
    traces: &[Trace],
) -> Result<Vec<Used>, AllocError>
    ensures { IfOk result (λ policies. policies.items ≡ policies_of choice.now.policy flow.now.nodes traces.now) }
{
    let mut policies = Vec::with_capacity(alloc, traces.len())?;
    for trace in traces {
        policies.push(policy_of(choice, flow, trace))?;
    }
    Ok(policies)
}

// How many words the parts of a procedure have. Where an image has its plan, none has too many.
fn widths_of(alloc: Global, plan: &Plan) -> Result<Vec<u32>, Memory>
    ensures { IfOk result (λ widths. widths.items ≡ line_widths (placed_in plan.now)) }
{
    match line_widths(alloc, plan) {
        Ok(widths) => Ok(widths),
        Err(_) => Err(Memory),
    }
}

// The word where a procedure begins.
fn entry_of(places: &[ProcPlace], number: usize) -> u32
    ensures { result ≡ (place_at places.now number).word }
{
    match places.get(number) {
        Some(place) => place.word,
        None => 0,
    }
}

// A number that is so much greater.
fn shifted(shift: usize, number: usize) -> Result<u32, Memory>
    ensures { IfOk result (λ n. n ≡ shift + number) }
{
    let sum = shift.checked_add(number).ok_or(Memory)?;
    u32::try_from(sum).map_err(|_| Memory)
}

// Appends the tables of a procedure that is shown.
#[tactic(auto, unfolding(crate::specs::Tables::tables_of))]
fn put_tables_of(
    alloc: Global,
    text: &mut Vec<u8>,
    shown: &ShownProcedure<'_>,
) -> Result<(), Memory>
    ensures { OnOk result (text.new.items ≡ text.old.items ++ tables_of (plain_shown shown.now)) }
{
    put_tables(alloc, text, shown)
}

// Appends the tables of a procedure with this flow and this plan.
fn put_shown(
    alloc: Global,
    text: &mut Vec<u8>,
    seen: &Seen<'_>,
    shift: usize,
    number: usize,
    flow: &Flow,
    plan: &Plan,
) -> Result<(), Memory>
    ensures { OnOk result (text.new.items ≡ text.old.items ++ tables_of (shown_of (view_of seen.now) shift number flow.now (placed_in plan.now))) }
{
    let traces = seen.traces_at(number);
    let policies = policies_of(alloc, &seen.choice, flow, traces)?;
    let widths = widths_of(alloc, plan)?;
    let shown = ShownProcedure {
        number: shifted(shift, number)?,
        registers: seen.choice.regs,
        flow,
        traces,
        outs: seen.outs_at(number),
        lines: seen.lines_at(number),
        policies: policies.as_slice(),
        parents: seen.parents_at(number),
        code: seen.code,
        entry: entry_of(seen.places, number),
        widths: widths.as_slice(),
    };
    put_tables_of(alloc, text, &shown)
}

/// Appends the tables of a procedure's traces, under a number that is so much greater.
pub(crate) fn put_tables_at(
    alloc: Global,
    text: &mut Vec<u8>,
    seen: &Seen<'_>,
    shift: usize,
    number: usize,
) -> Result<(), Memory>
    ensures { OnOk result (text.new.items ≡ text.old.items ++ tables_at (view_of seen.now) shift number) }
{
    if number >= seen.flows.len() {
        return Ok(());
    }
    if number >= seen.plans.len() {
        return Ok(());
    }
    let flow = &seen.flows[number];
    let plan = &seen.plans[number];
    put_shown(alloc, text, seen, shift, number, flow, plan)
}
