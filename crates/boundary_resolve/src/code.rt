//! A procedure's lines, node by node.

ghost use Rattle.std.specs.Prelude.{◌≡◌, ℕ, ◌≤◌, ◌++◌, ◌∷◌, [], map, filter, flat_map, length, None, IfOk, OnOk, slice_index_or};
ghost use Rattle.run_laws.specs.Layers.{places_from};
ghost use Rattle.lir_core.specs.Spots.{argument_of, IsRising};
ghost use Rattle.lir_core.specs.Flows.{node_at};
ghost use Rattle.lir_core.specs.Lines.{AreDistinct};
ghost use Rattle.parallel_move.specs.Order.{is_moving, copied, order_of};
ghost use Rattle.boundary_resolve.specs.declared.code_line.CodeLine.TheVariants.{Edge, Body};
ghost use Rattle.boundary_resolve.specs.Moves.{edge_moves, entry_places, FewRegs};
ghost use Rattle.boundary_resolve.specs.Placing.{start_at, end_at, lines_at, is_test, steps_of_end, jump_steps, steps_from, test_steps, entry_steps, node_lines};
ghost use Rattle.boundary_resolve.specs.Codes.{OfCode};

use crate::code_line::CodeLine;
use crate::moves::{Before, moves_to};
use crate::near::{is_near, push_near};
use crate::seats::Seat;
use lir_core::{Flow, Items, Leave, Line, Move, Places, TraceOut};
use outside::Memory;
use parallel_move::{Step, leading, order};
use std::alloc::{AllocError, Global};

/// A flow, the results for its traces, and where its nodes stand in them.
#[derive(Drop)]
pub(crate) struct Code<'a> {
    pub(crate) flow: &'a Flow,
    pub(crate) outs: &'a [TraceOut],
    pub(crate) seats: Vec<Option<Seat>>,
    /// The places of a node that has no seat.
    pub(crate) nowhere: Places,
}

impl Code<'_> {
    /// The steps of the entry's edge.
    pub(crate) fn push_entry(
        &self,
        alloc: Global,
        placed: &mut Vec<CodeLine>,
        moves: &mut Vec<Move>,
    ) -> Result<(), Memory>
        ensures { OfCode self.now (λ f traces outs. OnOk result (placed.new.items ≡ placed.old.items ++ map Edge (entry_steps f traces outs))) }
    {
        let params = self.params(0);
        let (before, args) = entry(alloc, params.len())?;
        push_edge(
            alloc,
            placed,
            moves,
            &before,
            self.start(0),
            params,
            args.as_slice(),
        )
    }

    /// The lines of some nodes.
    pub(crate) fn push_nodes(
        &self,
        alloc: Global,
        placed: &mut Vec<CodeLine>,
        moves: &mut Vec<Move>,
        nodes: &[u32],
    ) -> Result<(), Memory>
        ensures { OfCode self.now (λ f traces outs. OnOk result (placed.new.items ≡ placed.old.items ++ flat_map (node_lines f traces outs) nodes.now)) }
    {
        for node in nodes {
            self.push_node(alloc, placed, moves, *node)?;
        }
        Ok(())
    }

    fn push_node(
        &self,
        alloc: Global,
        placed: &mut Vec<CodeLine>,
        moves: &mut Vec<Move>,
        node: u32,
    ) -> Result<(), Memory>
        ensures { OfCode self.now (λ f traces outs. OnOk result (placed.new.items ≡ placed.old.items ++ node_lines f traces outs node)) }
    {
        placed.push(CodeLine::Node(node))?;
        self.push_test(alloc, placed, moves, node)?;
        push_lines(alloc, placed, self.lines(node))?;
        self.push_jump(alloc, placed, moves, node)?;
        placed.push(CodeLine::Leave(node))?;
        Ok(())
    }

    // The steps of the edge from a test into a node.
    fn push_test(
        &self,
        alloc: Global,
        placed: &mut Vec<CodeLine>,
        moves: &mut Vec<Move>,
        node: u32,
    ) -> Result<(), Memory>
        ensures { OfCode self.now (λ f traces outs. OnOk result (placed.new.items ≡ placed.old.items ++ map Edge (test_steps f traces outs node))) }
    {
        match self.preds(node).first() {
            Some(pred) if self.is_test(*pred) => push_edge(
                alloc,
                placed,
                moves,
                self.end(*pred),
                self.start(node),
                &[],
                &[],
            ),
            _ => Ok(()),
        }
    }

    // The steps of the edge of a node's jump.
    fn push_jump(
        &self,
        alloc: Global,
        placed: &mut Vec<CodeLine>,
        moves: &mut Vec<Move>,
        node: u32,
    ) -> Result<(), Memory>
        ensures { OfCode self.now (λ f traces outs. OnOk result (placed.new.items ≡ placed.old.items ++ map Edge (jump_steps f traces outs node))) }
    {
        let Some(leaving) = self.flow.nodes.as_slice().get(node as usize) else {
            return Ok(());
        };
        match &leaving.end {
            Leave::Jump { to, args } => push_edge(
                alloc,
                placed,
                moves,
                self.end(node),
                self.start(*to),
                self.params(*to),
                args.as_slice(),
            ),
            _ => Ok(()),
        }
    }

    fn seat(&self, node: u32) -> Option<Seat>
        ensures { result ≡ slice_index_or self.now.seats.items node None }
    {
        match self.seats.get(node as usize) {
            Some(seat) => *seat,
            None => None,
        }
    }

    fn start(&self, node: u32) -> &Places
        ensures { OfCode self.now (λ f traces outs. result.now ≡ start_at traces outs node) }
    {
        let Some(seat) = self.seat(node) else {
            return &self.nowhere;
        };
        let Some(out) = self.outs.get(seat.trace) else {
            return &self.nowhere;
        };
        match out.starts.as_slice().get(seat.at) {
            Some(places) => places,
            None => &self.nowhere,
        }
    }

    fn end(&self, node: u32) -> &Places
        ensures { OfCode self.now (λ f traces outs. result.now ≡ end_at traces outs node) }
    {
        let Some(seat) = self.seat(node) else {
            return &self.nowhere;
        };
        let Some(out) = self.outs.get(seat.trace) else {
            return &self.nowhere;
        };
        match out.ends.as_slice().get(seat.at) {
            Some(places) => places,
            None => &self.nowhere,
        }
    }

    fn lines(&self, node: u32) -> &[Line]
        ensures { OfCode self.now (λ f traces outs. result.now ≡ lines_at traces outs node) }
    {
        let Some(seat) = self.seat(node) else {
            return &[];
        };
        let Some(out) = self.outs.get(seat.trace) else {
            return &[];
        };
        match out.lines.as_slice().get(seat.at) {
            Some(lines) => lines.as_slice(),
            None => &[],
        }
    }

    fn params(&self, node: u32) -> &[u32]
        ensures { result.now ≡ (node_at self.now.flow.now.nodes node).params }
    {
        match self.flow.nodes.as_slice().get(node as usize) {
            Some(node) => node.params.as_slice(),
            None => &[],
        }
    }

    fn preds(&self, node: u32) -> &[u32]
        ensures { result.now ≡ (node_at self.now.flow.now.nodes node).preds }
    {
        match self.flow.nodes.as_slice().get(node as usize) {
            Some(node) => node.preds.as_slice(),
            None => &[],
        }
    }

    fn is_test(&self, node: u32) -> bool
        ensures { result ≡ is_test (node_at self.now.flow.now.nodes node).end }
    {
        match self.flow.nodes.as_slice().get(node as usize) {
            Some(node) => is_test(&node.end),
            None => false,
        }
    }
}

fn is_test(end: &Leave) -> bool
    ensures { result ≡ is_test end.now }
{
    match end {
        Leave::Branch { .. } | Leave::Nonzero { .. } => true,
        Leave::Jump { .. } | Leave::Return(_) | Leave::Trap(_) => false,
    }
}

// The places before the entry's edge, and the arguments, by their numbers.
fn entry(alloc: Global, count: usize) -> Result<(Places, Vec<u32>), Memory>
    ensures { IfOk result (λ pair. (pair.0 ≡ entry_places count) × (pair.1.items ≡ places_from 0 count)) }
{
    let Ok(end) = u32::try_from(count) else {
        return Err(Memory);
    };
    let mut regs = Vec::with_capacity(alloc, count)?;
    let mut args = Vec::with_capacity(alloc, count)?;
    for number in 0..end {
        regs.push(Some(number))?;
        args.push(number)?;
    }
    let places = Places {
        regs: Items::from_vec(regs),
        homed: Items::new(alloc),
    };
    Ok((places, args))
}

// The steps of an edge. The moves are a room for its own.
#[inline(never)]
fn push_edge(
    alloc: Global,
    placed: &mut Vec<CodeLine>,
    moves: &mut Vec<Move>,
    from: &Places,
    to: &Places,
    params: &[u32],
    args: &[u32],
) -> Result<(), Memory>
    ensures { FewRegs from.now → FewRegs to.now → IsRising to.now.homed
        → OnOk result (placed.new.items ≡ placed.old.items ++ map Edge
        (order_of (edge_moves from.now to.now (argument_of params.now args.now)))) }
{
    if !is_near(from, to, params) {
        return push_far(alloc, placed, from, to, params, args);
    }
    moves.clear();
    push_near(moves, from, to, params, args)?;
    if moves.is_empty() {
        return Ok(());
    }
    push_ordered(alloc, placed, moves.as_slice())
}

// The steps of an edge, by tables.
#[inline(never)]
fn push_far(
    alloc: Global,
    placed: &mut Vec<CodeLine>,
    from: &Places,
    to: &Places,
    params: &[u32],
    args: &[u32],
) -> Result<(), Memory>
    ensures { FewRegs from.now → FewRegs to.now → IsRising to.now.homed
        → OnOk result (placed.new.items ≡ placed.old.items ++ map Edge
        (order_of (edge_moves from.now to.now (argument_of params.now args.now)))) }
{
    let before = Before::new(alloc, from, params, args)?;
    let moves = moves_to(alloc, &before, to)?;
    let steps = order(alloc, moves.as_slice())?;
    push_steps(placed, steps.as_slice())?;
    Ok(())
}

// The steps of moves that are made all at once.
#[inline(never)]
fn push_ordered(alloc: Global, placed: &mut Vec<CodeLine>, moves: &[Move]) -> Result<(), Memory>
    ensures { AreDistinct moves.now → OnOk result (placed.new.items ≡ placed.old.items ++ map Edge (order_of moves.now)) }
{
    let first = leading(moves);
    push_copies(placed, &moves[..first])?;
    if first == moves.len() {
        return Ok(());
    }
    let steps = order(alloc, &moves[first..])?;
    push_steps(placed, steps.as_slice())?;
    Ok(())
}

// The steps of moves in their own order.
fn push_copies(placed: &mut Vec<CodeLine>, moves: &[Move]) -> Result<(), AllocError>
    ensures { OnOk result (placed.new.items ≡ placed.old.items ++ map Edge (map copied (filter is_moving moves.now))) }
{
    for m in moves {
        if m.to != m.from {
            placed.push(CodeLine::Edge(Step::Copy {
                to: m.to,
                from: m.from,
            }))?;
        }
    }
    Ok(())
}

fn push_steps(placed: &mut Vec<CodeLine>, steps: &[Step]) -> Result<(), AllocError>
    ensures { OnOk result (placed.new.items ≡ placed.old.items ++ map Edge steps.now) }
{
    for step in steps {
        placed.push(CodeLine::Edge(*step))?;
    }
    Ok(())
}

fn push_lines(alloc: Global, placed: &mut Vec<CodeLine>, lines: &[Line]) -> Result<(), AllocError>
    ensures { OnOk result (placed.new.items ≡ placed.old.items ++ map Body lines.now) }
{
    for line in lines {
        placed.push(CodeLine::Body(copied(alloc, line)?))?;
    }
    Ok(())
}

fn copied(alloc: Global, line: &Line) -> Result<Line, AllocError>
    ensures { IfOk result (λ copy. copy ≡ line.now) }
{
    match line {
        Line::Lir(index) => Ok(Line::Lir(*index)),
        Line::Store { reg, value } => Ok(Line::Store {
            reg: *reg,
            value: *value,
        }),
        Line::Load { reg, value } => Ok(Line::Load {
            reg: *reg,
            value: *value,
        }),
        Line::Moves(moves) => Ok(Line::Moves(Items::from_slice(alloc, moves.as_slice())?)),
        Line::Result(reg) => Ok(Line::Result(*reg)),
        Line::Target(place) => Ok(Line::Target(*place)),
    }
}
