//! From results to bytes.

ghost use Rattle.std.specs.Prelude.{◌≡◌, ◌++◌, OnOk};
ghost use Rattle.plain_form.specs.Spelling.{number, IsNumber};
ghost use Rattle.plain_form.specs.results.Spelling.{held, places, place, move, line, from_lines, from_ends, from_starts, result as spelled_result};
ghost use Rattle.plain_form.specs.results.Bounds.{TypedHeld, TypedPlaces, TypedPlace, TypedMove, TypedLine, TypedLines, TypedEnds, TypedStarts, TypedResult};

use crate::writing::{ToBytes, put_number};
use lir_core::{Line, Move, Place, Places, TraceOut};
use std::alloc::AllocError;

// What a register has.
impl ToBytes for Option<u32> {
    ghost spelled = { held };

    ghost typed = { TypedHeld };

    #[tactic(auto, using(crate::proofs::Counts::lowest))]
    fn put(&self, out: &mut Vec<u8>) -> Result<(), AllocError> {
        match self {
            None => put_number(out, 0),
            Some(value) => put_number(out, value.wrapping_add(1)),
        }
    }
}

impl ToBytes for Places {
    ghost spelled = { places };

    ghost typed = { TypedPlaces };

    fn put(&self, out: &mut Vec<u8>) -> Result<(), AllocError> {
        self.regs.put(out)?;
        self.homed.put(out)
    }
}

impl ToBytes for Place {
    ghost spelled = { place };

    ghost typed = { TypedPlace };

    fn put(&self, out: &mut Vec<u8>) -> Result<(), AllocError> {
        match self {
            Place::Reg(register) => {
                put_number(out, 0)?;
                register.put(out)
            }
            Place::Home(value) => {
                put_number(out, 1)?;
                value.put(out)
            }
            Place::Out(slot) => {
                put_number(out, 2)?;
                slot.put(out)
            }
        }
    }
}

impl ToBytes for Move {
    ghost spelled = { move };

    ghost typed = { TypedMove };

    fn put(&self, out: &mut Vec<u8>) -> Result<(), AllocError> {
        self.to.put(out)?;
        self.from.put(out)
    }
}

// Puts a register and a value behind bytes.
fn put_stored(out: &mut Vec<u8>, register: u8, value: u32) -> Result<(), AllocError>
    ensures bytes { OnOk result (out.new.items ≡ out.old.items ++ (number register ++ number value)) }
    ensures typed { OnOk result (IsNumber value) }
{
    register.put(out)?;
    put_number(out, value)
}

impl ToBytes for Line {
    ghost spelled = { line };

    ghost typed = { TypedLine };

    fn put(&self, out: &mut Vec<u8>) -> Result<(), AllocError> {
        match self {
            Line::Lir(index) => {
                put_number(out, 0)?;
                put_number(out, *index)
            }
            Line::Store { reg, value } => {
                put_number(out, 1)?;
                put_stored(out, *reg, *value)
            }
            Line::Load { reg, value } => {
                put_number(out, 2)?;
                put_stored(out, *reg, *value)
            }
            Line::Moves(moves) => {
                put_number(out, 3)?;
                moves.put(out)
            }
            Line::Result(reg) => {
                put_number(out, 4)?;
                reg.put(out)
            }
            Line::Target(place) => {
                put_number(out, 5)?;
                place.put(out)
            }
        }
    }
}

// Puts the lines of a result, and the registers of its uses and definitions, behind bytes.
fn put_lines(out: &mut Vec<u8>, o: &TraceOut) -> Result<(), AllocError>
    ensures bytes { OnOk result (out.new.items ≡ out.old.items ++ from_lines o.now) }
    ensures typed { OnOk result (TypedLines o.now) }
{
    o.lines.put(out)?;
    o.regs.put(out)
}

// Puts the end places of a result behind bytes, and what comes then.
fn put_ends(out: &mut Vec<u8>, o: &TraceOut) -> Result<(), AllocError>
    ensures bytes { OnOk result (out.new.items ≡ out.old.items ++ from_ends o.now) }
    ensures typed { OnOk result (TypedEnds o.now) }
{
    o.ends.put(out)?;
    put_lines(out, o)
}

// Puts the start places of a result behind bytes, and what comes then.
fn put_starts(out: &mut Vec<u8>, o: &TraceOut) -> Result<(), AllocError>
    ensures bytes { OnOk result (out.new.items ≡ out.old.items ++ from_starts o.now) }
    ensures typed { OnOk result (TypedStarts o.now) }
{
    o.starts.put(out)?;
    put_ends(out, o)
}

impl ToBytes for TraceOut {
    ghost spelled = { spelled_result };

    ghost typed = { TypedResult };

    fn put(&self, out: &mut Vec<u8>) -> Result<(), AllocError> {
        self.trace.put(out)?;
        put_starts(out, self)
    }
}
