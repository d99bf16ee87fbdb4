//! The traces of flows, as a pool takes them.

ghost use Rattle.std.specs.Prelude.{◌≡◌, ◌+◌, ◌++◌, ◌<◌, ◌≤◌, length, All, IfOk, IfErr, OnOk, Some};
ghost use Rattle.lir_core.specs.Flows.{IsValidFlow};
ghost use Rattle.pool_core.specs.Tree.{IsTree};
ghost use Rattle.trace_build.specs.Traces.{traces_in};
ghost use Rattle.linear_scan.specs.Inputs.{lent};
ghost use Rattle.alloc_choice.specs.Choice.{IsFitChoice};
ghost use Rattle.trace_work.specs.Lent.{hints};
ghost use Rattle.trace_work.specs.Plans.{IsOrdered, IsPlan};
ghost use Rattle.trace_work.specs.Entries.{AreEntries, entries_of, parents_in};
ghost use Rattle.trace_work.specs.Entries.{above as above_in};
ghost use Rattle.trace_work.specs.Finals.{AreNumbered, AreBehind, flows_in, joined, plain_hint, IsFinalOf, IsHintOf};
ghost use Rattle.trace_work.specs.declared.fault.WorkFault.TheVariants.{Traces};

use crate::fault::WorkFault;
use crate::hints::Hint;
use crate::planning::{TracePlan, plan_of};
use crate::results::{result, taken_hint};
use alloc_choice::Choice;
use items::Items;
use lir_core::{Flow, Places, TraceOut};
use outside::Memory;
use pool_core::Work;
use std::alloc::{AllocError, Global};

/// The most traces that a pool takes.
pub const MOST_TRACES: usize = 262_144;

/// Which trace stands at a place.
#[derive(Clone, Copy)]
pub struct Entry {
    /// The flow's place among the flows.
    pub flow: usize,
    /// The trace's number in its flow.
    pub number: usize,
    /// The place of the trace above it.
    pub parent: Option<u32>,
}

/// The places behind a node of the trace above, which a trace takes as its hint.
#[derive(Drop)]
pub struct TraceHint {
    pub node: u32,
    pub places: Places,
}

/// Flows in traces, which have places one behind the other through all of these flows, and the entry of each place. Their numbers
/// begin behind the traces of flows that were worked on before.
#[derive(Drop)]
pub struct TraceWork<'a> {
    pub choice: Choice,
    pub plans: Vec<TracePlan<'a>>,
    pub entries: Vec<Entry>,
    /// How many traces there are in the flows before these.
    pub before: u32,
    pub ghost fit: { IsFitChoice choice },
    pub ghost small: { before + length entries.items ≤ 262144 },
    pub ghost behind: { AreBehind before plans.items },
    pub ghost entered: { AreEntries plans.items entries.items },
    pub ghost tree: { IsTree (parents_in entries.items) },
}

impl<'a> TraceWork<'a> {
    /// The flows in the traces of the builder that is chosen, behind so many traces of flows before them. `Traces` comes exactly
    /// where there are over 262,144 with those. Near-linear in the flows' nodes, edges and live values.
    pub fn new(
        alloc: Global,
        choice: &Choice,
        before: u32,
        flows: &'a [Flow],
    ) -> Result<TraceWork<'a>, WorkFault>
        requires fit { IsFitChoice choice.now }
        requires before { before ≤ 262144 }
        ensures choice { IfOk result (λ work. work.choice ≡ choice.now) }
        ensures flows { IfOk result (λ work. flows_in work.plans.items ≡ flows.now) }
        ensures plans { All IsValidFlow flows.now → IfOk result (λ work. All (IsPlan choice.now.builder) work.plans.items) }
        ensures numbered { IfOk result (λ work. AreNumbered 0 work.plans.items) }
        ensures behind { IfOk result (λ work. AreBehind before work.plans.items) }
        ensures count { IfOk result (λ work. length work.entries.items ≡ traces_in choice.now.builder flows.now) }
        ensures few { IfOk result (λ work. before + length work.entries.items ≤ 262144) }
        ensures limit { IfErr result (λ fault. fault ≡ Traces → 262144 < before + traces_in choice.now.builder flows.now) }
    {
        let most = MOST_TRACES - before as usize;
        let mut plans = Vec::new(alloc);
        let mut entries = Vec::new(alloc);
        for flow in flows {
            let first = entries.len() as u32;
            let plan = plan_of(alloc, choice.builder, flow, first, before + first)?;
            if plan.traces.len() > most - entries.len() {
                return Err(WorkFault::Traces);
            }
            put_entries(&mut entries, plans.len(), &plan)?;
            plans.push(plan)?;
        }
        Ok(TraceWork {
            choice: *choice,
            plans,
            entries,
            before,
        })
    }
}

// Appends the entries of the plan at this place.
fn put_entries(entries: &mut Vec<Entry>, flow: usize, plan: &TracePlan) -> Result<(), WorkFault>
    requires few { length entries.old.items + length plan.now.traces ≤ 262144 }
    requires first { plan.now.first ≡ length entries.old.items }
    requires ordered { IsOrdered plan.now }
    ensures entries { OnOk result (entries.new.items ≡ entries.old.items ++ entries_of flow plan.now) }
    ensures limit { IfErr result (λ fault. fault ≡ Traces → ⊥) }
{
    for number in 0..plan.traces.len() {
        entries.push(Entry {
            flow,
            number,
            parent: above(plan, number),
        })?;
    }
    Ok(())
}

// The place of the trace above.
fn above(plan: &TracePlan, number: usize) -> Option<u32>
    requires few { plan.now.first + length plan.now.traces ≤ 262144 }
    requires number { number < length plan.now.traces }
    requires ordered { IsOrdered plan.now }
    ensures { result ≡ above_in plan.now number }
{
    let parent = plan.parents.as_slice()[number]?;
    Some(plan.first + parent)
}

// A copy of a hint.
fn copied(alloc: Global, hint: Hint) -> Result<TraceHint, AllocError>
    ensures { IfOk result (λ copy. plain_hint (Some copy) ≡ hints (Some hint.entry)) }
{
    Ok(TraceHint {
        node: hint.node,
        places: Places {
            regs: Items::from_slice(alloc, hint.places.regs.as_slice())?,
            homed: Items::from_slice(alloc, hint.places.homed.as_slice())?,
        },
    })
}

// The hint that is given, if one is.
fn given<'b>(hint: Option<&'b Option<TraceHint>>) -> Option<&'b TraceHint>
    ensures { lent result ≡ joined (lent hint.entry) }
{
    let hint = hint?;
    hint.as_ref()
}

impl<'a> Work for TraceWork<'a> {
    type Done = TraceOut;

    type Hint = Option<TraceHint>;

    ghost parents = { λ w. parents_in w.entries.items };

    ghost is_final = { λ w trace out. IsFinalOf w.choice w.plans.items w.entries.items trace out };

    ghost is_hint = { λ w trace hint. IsHintOf w.choice w.plans.items w.entries.items trace hint };

    fn count(&self) -> u32 {
        self.entries.len() as u32
    }

    fn parent(&self, trace: u32) -> Option<u32> {
        self.entries[trace as usize].parent
    }

    fn gate_number(&self, trace: u32) -> u32 {
        self.before + trace
    }

    fn run<'b>(
        &'b self,
        alloc: Global,
        trace: u32,
        hint: Option<&'b Option<TraceHint>>,
    ) -> Result<TraceOut, Memory> {
        let entry = self.entries[trace as usize];
        let plan = &self.plans[entry.flow];
        match given(hint) {
            Some(hint) => {
                let (node, places) = (Some(hint.node), Some(&hint.places));
                result(alloc, &self.choice, plan, entry.number, node, places)
            }
            None => result(alloc, &self.choice, plan, entry.number, None, None),
        }
    }

    fn hint(
        &self,
        alloc: Global,
        done: &TraceOut,
        child: u32,
    ) -> Result<Option<TraceHint>, Memory> {
        let entry = self.entries[child as usize];
        let Some(parent) = entry.parent else {
            return Ok(None);
        };
        let above = self.entries[parent as usize].number;
        let plan = &self.plans[entry.flow];
        match taken_hint(&self.choice, plan, above, done, entry.number) {
            Some(hint) => Ok(Some(copied(alloc, hint)?)),
            None => Ok(None),
        }
    }
}
