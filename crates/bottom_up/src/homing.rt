//! The values that are homed first.

ghost use Rattle.std.specs.Prelude.{◌≡◌, [], ◌∷◌, map, IfOk, OnOk, filter, slice_get, option_to_list};
ghost use Rattle.std.specs.Option.{option_map};
ghost use Rattle.block_runs.specs.Live.{has, defs_of, block_makes};
ghost use Rattle.lir_core.specs.Flows.{operation_of, code_node};
ghost use Rattle.lir_core.specs.Rows.{has_bit, live_into};
ghost use Rattle.loc_state.specs.Homed.{all_inserted};
ghost use Rattle.linear_scan.specs.Inputs.{case_of};
ghost use Rattle.bottom_up.specs.Bottom.{made_by, made_along, homed_first};

use lir_core::{Flow, Lir, LiveSets, Node, TraceIn};
use loc_back::live_values;
use loc_state::Homes;
use std::alloc::{AllocError, Global};

/// The values that are live into a trace's head and made in the trace.
pub(crate) fn homed_first(alloc: Global, t: &TraceIn) -> Result<Vec<u32>, AllocError>
    ensures { IfOk result (λ homed. homed.items ≡ homed_first (case_of t.now) t.now.trace.now.nodes) }
{
    let nodes = t.trace.nodes.as_slice();
    match nodes.first() {
        Some(head) => homed_at(alloc, t, *head, nodes),
        None => Ok(Vec::new(alloc)),
    }
}

// The values that are live into a node and made in nodes: mostly none.
fn homed_at(alloc: Global, t: &TraceIn, head: u32, nodes: &[u32]) -> Result<Vec<u32>, AllocError>
    ensures { IfOk result (λ homed. homed.items ≡ filter (has (made_along t.now.flow.now.nodes nodes.now)) (live_into t.now.flow.now.values t.now.live.now head)) }
{
    let into = Into { live: t.live, head };
    let made = into.made_along(alloc, t.flow, nodes)?;
    live_and_made(alloc, t.live, head, t.flow.values, &made)
}

// Of so many values those that are live into a node and made.
fn live_and_made(
    alloc: Global,
    live: &LiveSets,
    node: u32,
    values: u32,
    made: &Homes,
) -> Result<Vec<u32>, AllocError>
    ensures { IfOk result (λ kept. kept.items ≡ filter (has made.now) (live_into values live.now node)) }
{
    if made.as_slice().is_empty() {
        return Ok(Vec::new(alloc));
    }
    let list = live_values(alloc, live, node, values)?;
    that_are_made(alloc, list.as_slice(), made)
}

fn that_are_made(alloc: Global, values: &[u32], made: &Homes) -> Result<Vec<u32>, AllocError>
    ensures { IfOk result (λ kept. kept.items ≡ filter (has made.now) values.now) }
{
    let mut kept = Vec::new(alloc);
    for value in values {
        if made.has(*value) {
            kept.push(*value)?;
        }
    }
    Ok(kept)
}

/// What is live into a node.
#[derive(Clone, Copy)]
struct Into<'a> {
    live: &'a LiveSets,
    head: u32,
}

impl Into<'_> {
    // Those that nodes make.
    fn made_along(&self, alloc: Global, flow: &Flow, nodes: &[u32]) -> Result<Homes, AllocError>
        ensures { IfOk result (λ made. made ≡ all_inserted (filter (has_bit self.now.live.now self.now.head) (made_along flow.now.nodes nodes.now)) []) }
    {
        let mut made = Homes::new(alloc);
        for number in nodes {
            self.add_number(&mut made, flow, *number)?;
        }
        Ok(made)
    }

    fn add_number(&self, made: &mut Homes, flow: &Flow, number: u32) -> Result<(), AllocError>
        ensures { OnOk result (made.new ≡ all_inserted (filter (has_bit self.now.live.now self.now.head) (made_by (slice_get flow.now.nodes number))) made.old) }
    {
        match node_at(flow, number) {
            Some(node) => self.add_made(made, node),
            None => Ok(()),
        }
    }

    fn add_made(&self, made: &mut Homes, node: &Node) -> Result<(), AllocError>
        ensures { OnOk result (made.new ≡ all_inserted (filter (has_bit self.now.live.now self.now.head) (block_makes (code_node node.now))) made.old) }
    {
        self.add_values(made, node.params.as_slice())?;
        self.add_definitions(made, node.lirs.as_slice())?;
        Ok(())
    }

    fn add_values(&self, made: &mut Homes, values: &[u32]) -> Result<(), AllocError>
        ensures { OnOk result (made.new ≡ all_inserted (filter (has_bit self.now.live.now self.now.head) values.now) made.old) }
    {
        for value in values {
            self.add_value(made, *value)?;
        }
        Ok(())
    }

    fn add_definitions(&self, made: &mut Homes, lirs: &[Lir]) -> Result<(), AllocError>
        ensures { OnOk result (made.new ≡ all_inserted (filter (has_bit self.now.live.now self.now.head) (defs_of (map operation_of lirs.now))) made.old) }
    {
        for lir in lirs {
            self.add_definition(made, lir)?;
        }
        Ok(())
    }

    fn add_definition(&self, made: &mut Homes, lir: &Lir) -> Result<(), AllocError>
        ensures { OnOk result (made.new ≡ all_inserted (filter (has_bit self.now.live.now self.now.head) (option_to_list lir.now.def)) made.old) }
    {
        match lir.def {
            Some(value) => self.add_value(made, value),
            None => Ok(()),
        }
    }

    fn add_value(&self, made: &mut Homes, value: u32) -> Result<(), AllocError>
        ensures { OnOk result (made.new ≡ all_inserted (filter (has_bit self.now.live.now self.now.head) (value ∷ [])) made.old) }
    {
        if self.live.has(self.head, value) {
            made.insert(value)
        } else {
            Ok(())
        }
    }
}

pub(crate) fn node_at(flow: &Flow, number: u32) -> Option<&Node>
    ensures { option_map (λ n. n.now) result ≡ slice_get flow.now.nodes number }
{
    flow.nodes.as_slice().get(number as usize)
}
