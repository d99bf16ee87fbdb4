//! From bytes to results.

ghost use Rattle.plain_form.specs.Reading.{Gives};
ghost use Rattle.plain_form.specs.results.Reading.{held_at, places_at, place_at, kind_of_place, move_at, stored_at, line_at, kind_of_line, result_at};

use crate::fault::FormFault;
use crate::reading::{FromBytes, number, up_to};
use lir_core::{Items, Line, Move, Place, Places, RegisterList, TraceOut};
use std::alloc::Global;

// What a register has: 0 where it is empty, else a number more than its value.
impl FromBytes for Option<u32> {
    ghost read_by = { held_at };

    #[tactic(auto, unfolding(crate::specs::results::Reading::held_at))]
    fn read(_alloc: Global, total: u32, bytes: &[u8]) -> Result<(Option<u32>, &[u8]), FormFault> {
        let (number, rest) = number(total, bytes)?;
        Ok((number.checked_sub(1), rest))
    }
}

impl FromBytes for Places {
    ghost read_by = { places_at };

    #[tactic(auto, unfolding(crate::specs::results::Reading::places_at))]
    fn read(alloc: Global, total: u32, bytes: &[u8]) -> Result<(Places, &[u8]), FormFault> {
        let (regs, rest) = Items::<Option<u32>>::read(alloc, total, bytes)?;
        let (homed, rest) = Items::<u32>::read(alloc, total, rest)?;
        Ok((Places { regs, homed }, rest))
    }
}

// A place of this kind.
fn place_of(alloc: Global, kind: u32, total: u32, bytes: &[u8]) -> Result<(Place, &[u8]), FormFault>
    ensures { Gives (λ x. (x.0, x.1.now)) result (kind_of_place kind total bytes.now) }
{
    match kind {
        0 => {
            let (reg, rest) = u8::read(alloc, total, bytes)?;
            Ok((Place::Reg(reg), rest))
        }
        1 => {
            let (value, rest) = number(total, bytes)?;
            Ok((Place::Home(value), rest))
        }
        _ => {
            let (slot, rest) = number(total, bytes)?;
            Ok((Place::Out(slot), rest))
        }
    }
}

impl FromBytes for Place {
    ghost read_by = { place_at };

    #[tactic(auto, unfolding(crate::specs::results::Reading::place_at))]
    fn read(alloc: Global, total: u32, bytes: &[u8]) -> Result<(Place, &[u8]), FormFault> {
        let (kind, rest) = up_to(2, total, bytes)?;
        place_of(alloc, kind, total, rest)
    }
}

impl FromBytes for Move {
    ghost read_by = { move_at };

    #[tactic(auto, unfolding(crate::specs::results::Reading::move_at))]
    fn read(alloc: Global, total: u32, bytes: &[u8]) -> Result<(Move, &[u8]), FormFault> {
        let (to, rest) = Place::read(alloc, total, bytes)?;
        let (from, rest) = Place::read(alloc, total, rest)?;
        Ok((Move { to, from }, rest))
    }
}

// A register and a value.
#[tactic(auto, unfolding(crate::specs::results::Reading::stored_at))]
fn stored(alloc: Global, total: u32, bytes: &[u8]) -> Result<((u8, u32), &[u8]), FormFault>
    ensures { Gives (λ x. (x.0, x.1.now)) result (stored_at total bytes.now) }
{
    let (reg, rest) = u8::read(alloc, total, bytes)?;
    let (value, rest) = number(total, rest)?;
    Ok(((reg, value), rest))
}

// A line of this kind.
fn line_of(alloc: Global, kind: u32, total: u32, bytes: &[u8]) -> Result<(Line, &[u8]), FormFault>
    ensures { Gives (λ x. (x.0, x.1.now)) result (kind_of_line kind total bytes.now) }
{
    match kind {
        0 => {
            let (index, rest) = number(total, bytes)?;
            Ok((Line::Lir(index), rest))
        }
        1 => {
            let (stored, rest) = stored(alloc, total, bytes)?;
            let (reg, value) = stored;
            Ok((Line::Store { reg, value }, rest))
        }
        2 => {
            let (stored, rest) = stored(alloc, total, bytes)?;
            let (reg, value) = stored;
            Ok((Line::Load { reg, value }, rest))
        }
        3 => {
            let (moves, rest) = Items::<Move>::read(alloc, total, bytes)?;
            Ok((Line::Moves(moves), rest))
        }
        4 => {
            let (reg, rest) = u8::read(alloc, total, bytes)?;
            Ok((Line::Result(reg), rest))
        }
        _ => {
            let (place, rest) = Place::read(alloc, total, bytes)?;
            Ok((Line::Target(place), rest))
        }
    }
}

impl FromBytes for Line {
    ghost read_by = { line_at };

    #[tactic(auto, unfolding(crate::specs::results::Reading::line_at))]
    fn read(alloc: Global, total: u32, bytes: &[u8]) -> Result<(Line, &[u8]), FormFault> {
        let (kind, rest) = up_to(5, total, bytes)?;
        line_of(alloc, kind, total, rest)
    }
}

impl FromBytes for TraceOut {
    ghost read_by = { result_at };

    #[tactic(auto, unfolding(crate::specs::results::Reading::result_at))]
    fn read(alloc: Global, total: u32, bytes: &[u8]) -> Result<(TraceOut, &[u8]), FormFault> {
        let (trace, rest) = number(total, bytes)?;
        let (starts, rest) = Items::<Places>::read(alloc, total, rest)?;
        let (ends, rest) = Items::<Places>::read(alloc, total, rest)?;
        let (lines, rest) = Items::<Items<Line>>::read(alloc, total, rest)?;
        let (regs, rest) = Items::<RegisterList>::read(alloc, total, rest)?;
        Ok((
            TraceOut {
                trace,
                starts,
                ends,
                lines,
                regs,
            },
            rest,
        ))
    }
}
