//! The search from the reads of values against the edges.

ghost use Rattle.std.specs.Prelude.{◌≡◌, OnOk, option_to_list};
ghost use Rattle.block_runs.specs.Blocks.{end_uses};

use crate::rows::Rows;
use lir_core::{Flow, Leave, Lir};
use outside::Memory;

/// Where a search stands.
#[derive(Drop)]
pub(crate) struct Search {
    /// What is known to be live.
    pub(crate) rows: Rows,
    /// The nodes into which the value that is searched for came to be live, and before which is still to be looked.
    pub(crate) pending: Vec<u32>,
}

impl Search {
    ghost use Rattle.global_live.specs.Search.{marks_of, marked, all_marked, operation_reads, preds_at, Explores, Follows};

    /// Follows all that a node's operations read.
    pub(crate) fn follow_operations(
        &mut self,
        flow: &Flow,
        makers: &[u32],
        number: u32,
        lirs: &[Lir],
    ) -> Result<(), Memory>
        ensures { OnOk result (Follows flow.now makers.now number (operation_reads lirs.now) self.old self.new) }
    {
        for lir in lirs {
            self.follow(flow, makers, number, lir.uses.as_slice())?;
        }
        Ok(())
    }

    /// Follows all that a node's end reads: the arguments of a jump too.
    pub(crate) fn follow_end(
        &mut self,
        flow: &Flow,
        makers: &[u32],
        number: u32,
        end: &Leave,
    ) -> Result<(), Memory>
        ensures { OnOk result (Follows flow.now makers.now number (end_uses end.now) self.old self.new) }
    {
        match end {
            Leave::Jump { args, .. } => self.follow(flow, makers, number, args.as_slice()),
            Leave::Branch { a, b, .. } => self.follow(flow, makers, number, &[*a, *b]),
            Leave::Nonzero { a, .. } => self.follow(flow, makers, number, &[*a]),
            Leave::Return(value) => self.follow_result(flow, makers, number, *value),
            Leave::Trap(_) => Ok(()),
        }
    }

    fn follow_result(
        &mut self,
        flow: &Flow,
        makers: &[u32],
        number: u32,
        value: Option<u32>,
    ) -> Result<(), Memory>
        ensures { OnOk result (Follows flow.now makers.now number (option_to_list value) self.old self.new) }
    {
        match value {
            Some(value) => self.follow(flow, makers, number, &[value]),
            None => Ok(()),
        }
    }

    // Follows reads of a node.
    fn follow(
        &mut self,
        flow: &Flow,
        makers: &[u32],
        number: u32,
        values: &[u32],
    ) -> Result<(), Memory>
        ensures { OnOk result (Follows flow.now makers.now number values.now self.old self.new) }
    {
        for value in values {
            self.mark(makers, number, *value)?;
            self.explore(flow, makers, *value)?;
        }
        Ok(())
    }

    // Goes on until nothing is pending.
    fn explore(&mut self, flow: &Flow, makers: &[u32], value: u32) -> Result<(), Memory>
        ensures { OnOk result (Explores flow.now makers.now value (marks_of self.old) (marks_of self.new)) }
    {
        while let Some(number) = self.pending.pop() {
            self.mark_before(flow, makers, number, value)?;
        }
        Ok(())
    }

    // A value is live into the nodes from which an edge leads to a node.
    fn mark_before(
        &mut self,
        flow: &Flow,
        makers: &[u32],
        number: u32,
        value: u32,
    ) -> Result<(), Memory>
        ensures { OnOk result (marks_of self.new ≡ all_marked makers.now value (preds_at flow.now number) (marks_of self.old)) }
    {
        match flow.nodes.as_slice().get(number as usize) {
            Some(node) => self.mark_each(makers, node.preds.as_slice(), value),
            None => Ok(()),
        }
    }

    // A value is live into these nodes, but those that make it.
    fn mark_each(&mut self, makers: &[u32], nodes: &[u32], value: u32) -> Result<(), Memory>
        ensures { OnOk result (marks_of self.new ≡ all_marked makers.now value nodes.now (marks_of self.old)) }
    {
        for node in nodes {
            self.mark(makers, *node, value)?;
        }
        Ok(())
    }

    // A value is live into a node, unless it makes it.
    fn mark(&mut self, makers: &[u32], node: u32, value: u32) -> Result<(), Memory>
        ensures { OnOk result (marks_of self.new ≡ marked makers.now value node (marks_of self.old)) }
    {
        let Some(maker) = makers.get(value as usize) else {
            return Ok(());
        };
        if *maker != node && self.rows.insert(node, value) {
            self.pending.push(node)?;
        }
        Ok(())
    }
}
