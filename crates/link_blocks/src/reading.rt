//! Copies from lines.

ghost use Rattle.std.specs.Prelude.{◌≡◌, [], ◌∷◌, ◌++◌, map, drop, OnOk, IfOk};
ghost use Rattle.lir_core.specs.Spots.{spot};
ghost use Rattle.placed_code.specs.Results.{line_copies};
ghost use Rattle.linked_flows.specs.Allocations.{copies_of, steps_of};
ghost use Rattle.linked_flows.specs.Allocations as linked;
ghost use Rattle.link_layout.specs.Spots.{copy_of, spot_of};
ghost use Rattle.link_blocks.specs.Ahead.{edges_ahead, behind_edges, copies_ahead, behind_copies, IsDistinct, AreAllDistinct};

use boundary_resolve::{CodeLine, Step};
use link_layout::{Copy, Spot};
use lir_core::{Line, Place};
use outside::Memory;
use parallel_move::order;
use std::alloc::{AllocError, Global};

/// The steps of an edge, from a line on, become copies; gives the line behind them.
pub(crate) fn push_edges(
    copies: &mut Vec<Copy>,
    lines: &[CodeLine],
    from: usize,
) -> Result<usize, AllocError>
    ensures copies { OnOk result (map copy_of copies.new.items ≡ map copy_of copies.old.items ++ edges_ahead (drop from lines.now)) }
    ensures behind { IfOk result (λ at. drop at lines.now ≡ behind_edges (drop from lines.now)) }
{
    for at in from..lines.len() {
        match &lines[at] {
            CodeLine::Edge(step) => push_step(copies, *step)?,
            _ => return Ok(at),
        }
    }
    Ok(lines.len())
}

/// A node's lines up to its next operation, or to its last line, become copies; gives the line behind them.
#[inline(always)]
pub(crate) fn push_body(
    alloc: Global,
    copies: &mut Vec<Copy>,
    lines: &[CodeLine],
    from: usize,
) -> Result<usize, Memory>
    ensures copies { AreAllDistinct lines.now → OnOk result (map copy_of copies.new.items ≡ map copy_of copies.old.items ++ copies_ahead (drop from lines.now)) }
    ensures behind { IfOk result (λ at. drop at lines.now ≡ behind_copies (drop from lines.now)) }
{
    for at in from..lines.len() {
        match &lines[at] {
            CodeLine::Body(Line::Lir(_)) => return Ok(at + 1),
            CodeLine::Body(line) => push_line(alloc, copies, line)?,
            _ => return Ok(at),
        }
    }
    Ok(lines.len())
}

/// A line before an operation becomes copies. Most operations have none, so this stands apart from the loop over lines.
#[inline(never)]
fn push_line(alloc: Global, copies: &mut Vec<Copy>, line: &Line) -> Result<(), Memory>
    ensures { IsDistinct line.now → OnOk result (map copy_of copies.new.items ≡ map copy_of copies.old.items ++ line_copies steps_of line.now) }
{
    match line {
        Line::Lir(_) => {}
        Line::Store { reg, value } => push(copies, Spot::Home(*value), Spot::Reg(*reg))?,
        Line::Load { reg, value } => push(copies, Spot::Reg(*reg), Spot::Home(*value))?,
        Line::Moves(moves) => push_steps(copies, order(alloc, moves.as_slice())?.as_slice())?,
        Line::Result(reg) => push(copies, Spot::Reg(*reg), Spot::Reg(0))?,
        Line::Target(place) => push(copies, Spot::Target, spot(*place))?,
    }
    Ok(())
}

fn push(copies: &mut Vec<Copy>, to: Spot, from: Spot) -> Result<(), AllocError>
    ensures { OnOk result (map copy_of copies.new.items ≡ map copy_of copies.old.items ++ copy_of (record { to = to; from = from }) ∷ []) }
{
    copies.push(Copy { to, from })?;
    Ok(())
}

fn push_steps(copies: &mut Vec<Copy>, steps: &[Step]) -> Result<(), AllocError>
    ensures { OnOk result (map copy_of copies.new.items ≡ map copy_of copies.old.items ++ copies_of steps.now) }
{
    for step in steps {
        push_step(copies, *step)?;
    }
    Ok(())
}

#[inline(never)]
fn push_step(copies: &mut Vec<Copy>, step: Step) -> Result<(), AllocError>
    ensures { OnOk result (map copy_of copies.new.items ≡ map copy_of copies.old.items ++ linked.copy_of step ∷ []) }
{
    copies.push(copy_of(step))?;
    Ok(())
}

fn copy_of(step: Step) -> Copy
    ensures { copy_of result ≡ linked.copy_of step }
{
    match step {
        Step::Copy { to, from } => Copy {
            to: spot(to),
            from: spot(from),
        },
        Step::Save(from) => Copy {
            to: Spot::Saved,
            from: spot(from),
        },
        Step::Restore(to) => Copy {
            to: spot(to),
            from: Spot::Saved,
        },
    }
}

fn spot(place: Place) -> Spot
    ensures { spot_of result ≡ spot place }
{
    match place {
        Place::Reg(number) => Spot::Reg(number),
        Place::Home(value) => Spot::Home(value),
        Place::Out(slot) => Spot::Out(slot),
    }
}
