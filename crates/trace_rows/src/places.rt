//! The texts of places, moves, steps and lines.

ghost use Rattle.std.specs.Prelude.{◌≡◌, ◌++◌, OnOk, flat_map, codes};
ghost use Rattle.trace_rows.specs.Places.{register_text, home_text, place_text, move_text, next_move, moves_text, step_text, kind_text, line_text, homed_at, homed_to, homed_by, homed_behind};

use crate::operations::{put_operation_at, put_spaced, put_value};
use html_text::{put_number, put_text};
use lir_core::{Line, Lir, Move, Place};
use parallel_move::Step;
use std::alloc::{AllocError, Global};

/// Appends a register.
pub(crate) fn put_register(alloc: Global, text: &mut Vec<u8>, reg: u8) -> Result<(), AllocError>
    ensures { OnOk result (text.new.items ≡ text.old.items ++ register_text reg) }
{
    put_text(text, b"X")?;
    put_number(alloc, text, u64::from(reg))
}

fn put_home(alloc: Global, text: &mut Vec<u8>, value: u32) -> Result<(), AllocError>
    ensures { OnOk result (text.new.items ≡ text.old.items ++ home_text value) }
{
    put_text(text, b"home of ")?;
    put_value(alloc, text, value)
}

fn put_slot(alloc: Global, text: &mut Vec<u8>, slot: u32) -> Result<(), AllocError>
    ensures { OnOk result (text.new.items ≡ text.old.items ++ place_text (Place.Out slot)) }
{
    put_text(text, b"slot ")?;
    put_number(alloc, text, u64::from(slot))
}

fn put_place(alloc: Global, text: &mut Vec<u8>, place: Place) -> Result<(), AllocError>
    ensures { OnOk result (text.new.items ≡ text.old.items ++ place_text place) }
{
    match place {
        Place::Reg(reg) => put_register(alloc, text, reg),
        Place::Home(value) => put_home(alloc, text, value),
        Place::Out(slot) => put_slot(alloc, text, slot),
    }
}

fn put_move(alloc: Global, text: &mut Vec<u8>, to: Place, from: Place) -> Result<(), AllocError>
    ensures { OnOk result (text.new.items ≡ text.old.items ++ move_text to from) }
{
    put_place(alloc, text, to)?;
    put_text(text, b" from ")?;
    put_place(alloc, text, from)
}

fn put_next_move(alloc: Global, text: &mut Vec<u8>, next: Move) -> Result<(), AllocError>
    ensures { OnOk result (text.new.items ≡ text.old.items ++ next_move next) }
{
    put_text(text, b", ")?;
    put_move(alloc, text, next.to, next.from)
}

fn put_next_moves(alloc: Global, text: &mut Vec<u8>, moves: &[Move]) -> Result<(), AllocError>
    ensures { OnOk result (text.new.items ≡ text.old.items ++ flat_map next_move moves.now) }
{
    for next in moves {
        put_next_move(alloc, text, *next)?;
    }
    Ok(())
}

fn put_moves(alloc: Global, text: &mut Vec<u8>, moves: &[Move]) -> Result<(), AllocError>
    ensures { OnOk result (text.new.items ≡ text.old.items ++ moves_text moves.now) }
{
    match moves {
        [] => Ok(()),
        [first, more @ ..] => {
            put_move(alloc, text, first.to, first.from)?;
            put_next_moves(alloc, text, more)
        }
    }
}

fn put_save(alloc: Global, text: &mut Vec<u8>, from: Place) -> Result<(), AllocError>
    ensures { OnOk result (text.new.items ≡ text.old.items ++ step_text (Step.Save from)) }
{
    put_text(text, b"X16 from ")?;
    put_place(alloc, text, from)
}

fn put_restore(alloc: Global, text: &mut Vec<u8>, to: Place) -> Result<(), AllocError>
    ensures { OnOk result (text.new.items ≡ text.old.items ++ step_text (Step.Restore to)) }
{
    put_place(alloc, text, to)?;
    put_text(text, b" from X16")
}

/// Appends a step of an edge.
pub(crate) fn put_step(alloc: Global, text: &mut Vec<u8>, step: Step) -> Result<(), AllocError>
    ensures { OnOk result (text.new.items ≡ text.old.items ++ step_text step) }
{
    match step {
        Step::Copy { to, from } => put_move(alloc, text, to, from),
        Step::Save(from) => put_save(alloc, text, from),
        Step::Restore(to) => put_restore(alloc, text, to),
    }
}

/// Which kind of row a line gives.
pub(crate) fn kind_of(line: &Line) -> &'static [u8]
    ensures { result.now ≡ kind_text line.now }
{
    match line {
        Line::Lir(_) => b"op",
        Line::Store { .. } | Line::Load { .. } => b"mem",
        Line::Moves(_) | Line::Result(_) | Line::Target(_) => b"move",
    }
}

fn put_store(alloc: Global, text: &mut Vec<u8>, reg: u8, value: u32) -> Result<(), AllocError>
    ensures { OnOk result (text.new.items ≡ text.old.items ++ (codes "store " ++ (register_text reg ++ (codes " to " ++ home_text value)))) }
{
    put_text(text, b"store ")?;
    put_register(alloc, text, reg)?;
    put_text(text, b" to ")?;
    put_home(alloc, text, value)
}

fn put_load(alloc: Global, text: &mut Vec<u8>, reg: u8, value: u32) -> Result<(), AllocError>
    ensures { OnOk result (text.new.items ≡ text.old.items ++ (codes "load " ++ (register_text reg ++ (codes " from " ++ home_text value)))) }
{
    put_text(text, b"load ")?;
    put_register(alloc, text, reg)?;
    put_text(text, b" from ")?;
    put_home(alloc, text, value)
}

fn put_arguments(alloc: Global, text: &mut Vec<u8>, moves: &[Move]) -> Result<(), AllocError>
    ensures { OnOk result (text.new.items ≡ text.old.items ++ (codes "arguments " ++ moves_text moves.now)) }
{
    put_text(text, b"arguments ")?;
    put_moves(alloc, text, moves)
}

fn put_result(alloc: Global, text: &mut Vec<u8>, reg: u8) -> Result<(), AllocError>
    ensures { OnOk result (text.new.items ≡ text.old.items ++ (codes "result " ++ (register_text reg ++ codes " from X0"))) }
{
    put_text(text, b"result ")?;
    put_register(alloc, text, reg)?;
    put_text(text, b" from X0")
}

fn put_target(alloc: Global, text: &mut Vec<u8>, from: Place) -> Result<(), AllocError>
    ensures { OnOk result (text.new.items ≡ text.old.items ++ (codes "target X25 from " ++ place_text from)) }
{
    put_text(text, b"target X25 from ")?;
    put_place(alloc, text, from)
}

/// Appends the text of a line of a node with these operations.
pub(crate) fn put_line(
    alloc: Global,
    text: &mut Vec<u8>,
    ops: &[Lir],
    line: &Line,
) -> Result<(), AllocError>
    ensures { OnOk result (text.new.items ≡ text.old.items ++ line_text ops.now line.now) }
{
    match line {
        Line::Lir(index) => put_operation_at(alloc, text, ops, *index),
        Line::Store { reg, value } => put_store(alloc, text, *reg, *value),
        Line::Load { reg, value } => put_load(alloc, text, *reg, *value),
        Line::Moves(moves) => put_arguments(alloc, text, moves.as_slice()),
        Line::Result(reg) => put_result(alloc, text, *reg),
        Line::Target(place) => put_target(alloc, text, *place),
    }
}

// The value whose home a place is.
fn put_homed_at(alloc: Global, text: &mut Vec<u8>, place: Place) -> Result<(), AllocError>
    ensures { OnOk result (text.new.items ≡ text.old.items ++ homed_at place) }
{
    match place {
        Place::Home(value) => put_spaced(alloc, text, value),
        Place::Reg(_) | Place::Out(_) => Ok(()),
    }
}

fn put_all_homed(alloc: Global, text: &mut Vec<u8>, moves: &[Move]) -> Result<(), AllocError>
    ensures { OnOk result (text.new.items ≡ text.old.items ++ flat_map homed_to moves.now) }
{
    for next in moves {
        put_homed_at(alloc, text, next.to)?;
    }
    Ok(())
}

/// Appends which homes are new behind a line.
pub(crate) fn put_homed_by(alloc: Global, text: &mut Vec<u8>, line: &Line) -> Result<(), AllocError>
    ensures { OnOk result (text.new.items ≡ text.old.items ++ homed_by line.now) }
{
    match line {
        Line::Store { value, .. } => put_spaced(alloc, text, *value),
        Line::Moves(moves) => put_all_homed(alloc, text, moves.as_slice()),
        Line::Lir(_) | Line::Load { .. } | Line::Result(_) | Line::Target(_) => Ok(()),
    }
}

/// Appends which homes are new behind a step.
pub(crate) fn put_homed_behind(
    alloc: Global,
    text: &mut Vec<u8>,
    step: Step,
) -> Result<(), AllocError>
    ensures { OnOk result (text.new.items ≡ text.old.items ++ homed_behind step) }
{
    match step {
        Step::Copy { to, .. } | Step::Restore(to) => put_homed_at(alloc, text, to),
        Step::Save(_) => Ok(()),
    }
}
