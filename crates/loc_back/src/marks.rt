//! Homes that are marked once the walk is over.

ghost use Rattle.std.specs.Prelude.{◌≡◌, [], ◌∷◌, IfOk, OnOk, slice_get};
ghost use Rattle.std.specs.Option.{option_map};
ghost use Rattle.block_runs.specs.Blocks.{end_uses, successors};
ghost use Rattle.lir_core.specs.Rows.{live_into};
ghost use Rattle.loc_state.specs.Homed.{all_inserted};
ghost use Rattle.loc_back.specs.Marks.{live_at_each, at_start, at_end, marked, starts_marked, ends_marked};

use crate::front_items::FrontItems;
use lir_core::{Flow, Items, Leave, LiveSets, Node, Places, next_live};
use std::alloc::{AllocError, Global};
use value_sets::ValueSet;

/// Values that are homed, and what is live into each node of a flow.
#[derive(Clone, Copy)]
pub(crate) struct Marking<'a> {
    pub(crate) flow: &'a Flow,
    pub(crate) live: &'a LiveSets,
    pub(crate) homed: &'a ValueSet,
}

impl Marking<'_> {
    // Adds what is live into a node.
    fn add_live(&self, values: &mut ValueSet, node: u32) -> Result<(), AllocError>
        ensures { OnOk result (values.new ≡ all_inserted (live_into self.now.flow.now.values self.now.live.now node) values.old) }
    {
        values.insert_live(self.live, node, self.flow.values)
    }

    // Adds what is live into a node to which an end leads.
    fn add_behind(&self, values: &mut ValueSet, end: &Leave) -> Result<(), AllocError>
        ensures { OnOk result (values.new ≡ all_inserted (live_at_each self.now.flow.now.values self.now.live.now (successors end.now)) values.old) }
    {
        match end {
            Leave::Jump { to, .. } => self.add_live(values, *to),
            Leave::Branch { yes, no, .. } => self.add_both(values, *yes, *no),
            Leave::Nonzero { yes, no, .. } => self.add_both(values, *yes, *no),
            Leave::Return(_) => Ok(()),
            Leave::Trap(_) => Ok(()),
        }
    }

    #[tactic(auto, using(loc_state::proofs::Homing::inserted_append))]
    fn add_both(&self, values: &mut ValueSet, yes: u32, no: u32) -> Result<(), AllocError>
        ensures { OnOk result (values.new ≡ all_inserted (live_at_each self.now.flow.now.values self.now.live.now (yes ∷ no ∷ [])) values.old) }
    {
        self.add_live(values, yes)?;
        self.add_live(values, no)?;
        Ok(())
    }

    // Adds what lives at a node's start.
    #[tactic(auto, using(loc_state::proofs::Homing::inserted_append))]
    fn add_start(&self, values: &mut ValueSet, number: u32) -> Result<(), AllocError>
        ensures { OnOk result (values.new ≡ all_inserted
            (at_start self.now.flow.now.values self.now.live.now number (slice_get self.now.flow.now.nodes number)) values.old) }
    {
        self.add_live(values, number)?;
        match node_at(self.flow, number) {
            Some(node) => values.insert_all(node.params.as_slice()),
            None => Ok(()),
        }
    }

    // Adds what lives at a node's end.
    #[tactic(auto, using(loc_state::proofs::Homing::inserted_append))]
    fn add_end(&self, values: &mut ValueSet, number: u32) -> Result<(), AllocError>
        ensures { OnOk result (values.new ≡ all_inserted (at_end self.now.flow.now.values self.now.live.now (slice_get self.now.flow.now.nodes number)) values.old) }
    {
        let Some(node) = node_at(self.flow, number) else {
            return Ok(());
        };
        self.add_behind(values, &node.end)?;
        add_used(values, &node.end)
    }

    // The homed ones of the values at a node's start; `values` is room for them.
    #[tactic(auto, using(crate::proofs::GivenHomes::kept_marked))]
    fn start_homes(
        &self,
        alloc: Global,
        values: &mut ValueSet,
        number: u32,
    ) -> Result<Items<u32>, AllocError>
        ensures { IfOk result (λ marks. marks ≡ marked self.now.homed.now
            (at_start self.now.flow.now.values self.now.live.now number (slice_get self.now.flow.now.nodes number)) []) }
    {
        values.clear();
        self.add_start(values, number)?;
        values.keep(self.homed);
        values.list(alloc)
    }

    // The homed ones of the values at a node's end.
    #[tactic(auto, using(crate::proofs::GivenHomes::kept_marked))]
    fn end_homes(
        &self,
        alloc: Global,
        values: &mut ValueSet,
        number: u32,
    ) -> Result<Items<u32>, AllocError>
        ensures { IfOk result (λ marks. marks ≡ marked self.now.homed.now (at_end self.now.flow.now.values self.now.live.now (slice_get self.now.flow.now.nodes number)) []) }
    {
        values.clear();
        self.add_end(values, number)?;
        values.keep(self.homed);
        values.list(alloc)
    }

    /// Gives the places at the starts of nodes their homes; `values` is room for those of a node.
    #[tactic(auto, using(crate::proofs::GivenHomes::starts_given))]
    pub(crate) fn mark_starts(
        &self,
        alloc: Global,
        values: &mut ValueSet,
        nodes: &[u32],
        places: &mut FrontItems<Places>,
    ) -> Result<(), AllocError>
        ensures { OnOk result (places.new ≡ starts_marked self.now.flow.now self.now.live.now self.now.homed.now nodes.now places.old) }
    {
        for (at, number) in nodes.iter().enumerate() {
            let homed = self.start_homes(alloc, values, *number)?;
            places.put_homes(at, homed);
        }
        Ok(())
    }

    /// Gives the places at the ends of nodes their homes; `values` is room for those of a node.
    #[tactic(auto, using(crate::proofs::GivenHomes::ends_given))]
    pub(crate) fn mark_ends(
        &self,
        alloc: Global,
        values: &mut ValueSet,
        nodes: &[u32],
        places: &mut FrontItems<Places>,
    ) -> Result<(), AllocError>
        ensures { OnOk result (places.new ≡ ends_marked self.now.flow.now self.now.live.now self.now.homed.now nodes.now places.old) }
    {
        for (at, number) in nodes.iter().enumerate() {
            let homed = self.end_homes(alloc, values, *number)?;
            places.put_homes(at, homed);
        }
        Ok(())
    }
}

// Adds what an end reads or passes on.
fn add_used(values: &mut ValueSet, end: &Leave) -> Result<(), AllocError>
    ensures { OnOk result (values.new ≡ all_inserted (end_uses end.now) values.old) }
{
    match end {
        Leave::Jump { args, .. } => values.insert_all(args.as_slice()),
        Leave::Branch { a, b, .. } => values.insert_all(&[*a, *b]),
        Leave::Nonzero { a, .. } => values.insert_all(&[*a]),
        Leave::Return(Some(a)) => values.insert_all(&[*a]),
        Leave::Return(None) => Ok(()),
        Leave::Trap(_) => Ok(()),
    }
}

/// Of so many values those that are live into a node, in order. Takes time in proportion to the words of the node's row and
/// to those values.
pub fn live_values(
    alloc: Global,
    live: &LiveSets,
    node: u32,
    values: u32,
) -> Result<Vec<u32>, AllocError>
    ensures { IfOk result (λ list. list.items ≡ live_into values live.now node) }
{
    let mut list = Vec::new(alloc);
    let mut from = 0;
    while let Some(value) = next_live(live, node, from, values) {
        list.push(value)?;
        from = value + 1;
    }
    Ok(list)
}

fn node_at(flow: &Flow, number: u32) -> Option<&Node>
    ensures { option_map (λ n. n.now) result ≡ slice_get flow.now.nodes number }
{
    flow.nodes.as_slice().get(number as usize)
}
